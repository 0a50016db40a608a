// A whole piece, in as many puts as the sink wants.
ghost use Rattle.std.specs.Prelude.{◌≡◌, ◌≤◌, [], OnOk, OnErr, IsOk, IsErrOf};
ghost use Rattle.std.specs.Io.KnownBytes.{Appends};
ghost use Rattle.corr_port.specs.Count.{Rose};
ghost use Rattle.corr_port.specs.Known.{AppendsFront};

use crate::{PutEnd, Sink};

/// Puts the whole piece. Each put is handed all that is left of it, and an empty piece needs none.
///
/// The call takes no memory itself; `NoMemory` is the sink's.
pub fn put_all<K: Sink>(out: &mut K, piece: &[u8]) -> Result<(), PutEnd>
    ensures ok { OnOk result (Appends (K.held out.old) (K.held out.new) piece.now) }
    ensures front { OnErr result (AppendsFront (K.held out.old) (K.held out.new) piece.now) }
    ensures empty { piece.now ≡ [] → IsOk result × (out.new ≡ out.old) }
    ensures cause { IsErrOf result PutEnd.Failed → Rose (K.faults out.old) (K.faults out.new) }
    ensures count { K.faults out.old ≤ K.faults out.new }
{
    let mut done = 0;
    while done < piece.len() {
        done += out.put(&piece[done..])?;
    }
    Ok(())
}
