// A turn of the search: a point is tried, and what it leaves, as long as at most one other has to wait.
ghost use Rattle.questions.specs.Promises.{SteadyFor, WentFor};

use crate::asking::Question;
use crate::trying::{Way, at_node};

// The points that a turn leaves for the list.
#[derive(Drop)]
pub struct Rest {
    pub waits: Way,
    pub beside: Way,
    pub below: Way,
}

impl<'a> Question<'a> {
    // A turn of the search: the first point is tried, and then the sibling or the child that it leaves. Where it leaves both, the
    // child is tried and the sibling waits, until nothing is left or a second would have to wait. Till then the list need not be
    // touched.
    pub fn turn(&self, marks: &mut [u64], first: Way) -> Option<Rest>
        requires { SteadyFor self.now marks.old first }
        ensures { WentFor self.now marks.old marks.new first result }
    {
        let mut at = at_node(first);
        let mut waiting: Option<Way> = None;
        while let Some(p) = at {
            let ways = self.try_point(marks, p);
            match (ways.below, ways.beside) {
                (None, None) => {
                    at = waiting;
                    waiting = None;
                }
                (None, Some(link)) => at = Some(Way { link, ..p }),
                (Some(below), None) => at = Some(below),
                (Some(below), Some(link)) => {
                    let beside = Way { link, ..p };
                    if let Some(waits) = waiting {
                        return Some(Rest {
                            waits,
                            beside,
                            below,
                        });
                    }
                    at = Some(below);
                    waiting = Some(beside);
                }
            }
        }
        None
    }
}
