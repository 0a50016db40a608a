// The walk round the polygon, counter-clockwise from its greatest first payoff.
use crate::headings::Heading;
use crate::simplex::Simplex;
use crate::steps::Board;
use crate::stops::{Stop, known};
use crate::vertices::Vertex;
use lp_form::Lp;
use plane_hull::{SideList, SideRow};
use polygon_sweep::{CornerList, Swept, SweptCorner};

/// How many bits a direction may have before a rougher one is tried first.
const LONG: u32 = 20;

/// How often a walk may look for the next corner.
const MOST_LOOKS: u32 = 3 * 4096;

/// A corner that was met further on.
#[derive(Drop)]
struct Ahead {
    corner: SweptCorner,
    vertex: Vertex,
}

/// What lies on the way from the present corner to one further on.
#[derive(Drop)]
enum Way {
    /// Nothing: they are the same.
    None,
    /// Another corner.
    Corner(Ahead),
    /// The edge between them, in whose direction the present corner has this side.
    Edge(Heading, SideRow),
}

/// A walk on its way: the corners and sides so far, the points of the first and of the present corner, the number of
/// the present one, and the direction of the last side.
#[derive(Drop)]
pub struct Round {
    simplex: Simplex,
    board: Board,
    swept: Swept,
    first: Vertex,
    present: Vertex,
    number: usize,
    last: Heading,
}

impl Round {
    /// Begins at the corner of the greatest first payoff.
    fn begin(lp: &Lp, mut simplex: Simplex, mut board: Board) -> Result<Round, Stop> {
        let right = Heading { one: 1, two: 0 };
        simplex.lead(&mut board, right, right.left())?;
        let corner = simplex.corner(lp)?;
        let vertex = simplex.vertex_of(&corner)?;
        let side = simplex.side(lp, &right, &corner, 0)?;
        let mut corners = CornerList::new(simplex.alloc);
        corners.push(corner)?;
        let mut sides = SideList::new(simplex.alloc);
        sides.push(side)?;
        Ok(Round {
            simplex,
            board,
            swept: Swept { corners, sides },
            first: vertex,
            present: vertex,
            number: 0,
            last: right,
        })
    }

    /// The corner that is furthest along a direction and, of all these, along another one.
    fn furthest(&mut self, lp: &Lp, heading: Heading, next: Heading) -> Result<Ahead, Stop> {
        self.simplex.lead(&mut self.board, heading, next)?;
        let corner = self.simplex.corner(lp)?;
        let vertex = self.simplex.vertex_of(&corner)?;
        Ok(Ahead { corner, vertex })
    }

    /// Looks along a rough direction first, where the exact one has long numbers.
    fn look_roughly(&mut self, lp: &Lp, next: &Ahead) -> Result<Option<Ahead>, Stop> {
        let Some(rough) = self.present.rough_normal_to(&next.vertex) else {
            return Ok(None);
        };
        let found = self.furthest(lp, rough, rough.left())?;
        let is_known = known(found.vertex.is_at(&self.present))?
            || known(found.vertex.is_at(&next.vertex))?;
        Ok(if is_known { None } else { Some(found) })
    }

    /// Looks beyond the line from the present corner to one further on.
    fn look(&mut self, lp: &Lp, next: &Ahead) -> Result<Way, Stop> {
        if known(self.present.is_at(&next.vertex))? {
            return Ok(Way::None);
        }
        let exact = self.present.normal_to(&next.vertex);
        if exact.is_none_or(|heading| heading.is_long(LONG)) {
            if let Some(found) = self.look_roughly(lp, next)? {
                return Ok(Way::Corner(found));
            }
        }
        let heading = known(exact)?;
        let found = self.furthest(lp, heading, heading.right())?;
        if !known(found.vertex.is_at(&self.present))? {
            return Ok(Way::Corner(found));
        }
        let side = self.simplex.side(lp, &heading, &found.corner, self.number)?;
        Ok(Way::Edge(heading, side))
    }

    /// Takes an edge with its side at the present corner, and goes on to the corner at its end.
    fn follow(
        &mut self,
        lp: &Lp,
        next: Ahead,
        heading: Heading,
        side: SideRow,
    ) -> Result<(), Stop> {
        self.swept.sides.push(side)?;
        let reached = self.furthest(lp, heading, heading.left())?;
        if !known(reached.vertex.is_at(&next.vertex))? {
            return Err(Stop::FoundNothing);
        }
        self.present = next.vertex;
        self.last = heading;
        let closes = known(next.vertex.is_at(&self.first))?;
        self.number = if closes { 0 } else { self.swept.corners.len() };
        if closes && heading == (Heading { one: 1, two: 0 }) {
            return Ok(());
        }
        let side = self
            .simplex
            .side(lp, &heading, &reached.corner, self.number)?;
        self.swept.sides.push(side)?;
        if !closes {
            self.swept.corners.push(next.corner)?;
        }
        Ok(())
    }

    /// Walks on to a corner that was met further on, round all corners between.
    fn reach(&mut self, lp: &Lp, end: Ahead) -> Result<(), Stop> {
        let mut ahead = Vec::new(self.simplex.alloc);
        ahead.push(end)?;
        for _ in 0..MOST_LOOKS {
            let Some(next) = ahead.pop() else {
                return Ok(());
            };
            match self.look(lp, &next)? {
                Way::None => {}
                Way::Corner(found) => {
                    ahead.push(next)?;
                    ahead.push(found)?;
                }
                Way::Edge(heading, side) => self.follow(lp, next, heading, side)?,
            }
        }
        Err(Stop::FoundNothing)
    }

    /// Walks on to the corner that is furthest along an axis, which has a side there.
    fn reach_axis(&mut self, lp: &Lp, axis: Heading) -> Result<(), Stop> {
        let end = self.furthest(lp, axis, axis.left())?;
        let mut side = self.simplex.side(lp, &axis, &end.corner, 0)?;
        self.reach(lp, end)?;
        if self.last != axis {
            side.corner = self.number;
            self.swept.sides.push(side)?;
            self.last = axis;
        }
        Ok(())
    }

    /// Walks on to the first corner.
    fn close(&mut self, lp: &Lp) -> Result<(), Stop> {
        if known(self.present.is_at(&self.first))? {
            return Ok(());
        }
        let right = Heading { one: 1, two: 0 };
        let end = self.furthest(lp, right, right.left())?;
        self.reach(lp, end)
    }
}

/// The corners and sides that a walk round the polygon meets.
pub fn walk_round(lp: &Lp, simplex: Simplex, board: Board) -> Result<Swept, Stop> {
    let mut round = Round::begin(lp, simplex, board)?;
    let mut axis = Heading { one: 0, two: 1 };
    for _ in 0..3 {
        round.reach_axis(lp, axis)?;
        axis = axis.left();
    }
    round.close(lp)?;
    let Round { swept, .. } = round;
    Ok(swept)
}
