// The queues at a state, and which kinds may come next.
ghost use Rattle.std.specs.Prelude.{◌≡◌, IsTrue, map};
ghost use Rattle.srs.specs.Piece.{all_pieces};
ghost use Rattle.hold_queue.specs.QueueSet.{queues_in_play};
ghost use Rattle.enumerate.specs.SearchState.{line_after, may_play};

use hold_queue::{QueueMemory, QueueSet};
use srs::Piece;

/// The queues with the pieces that were played, and which kinds may come next.
#[derive(Clone, Copy)]
pub struct Line {
    pub queues: QueueSet,
    /// Whether each kind may come next, in the order of codes.
    may_come: [bool; 7],
    ghost coming: { may_come ≡ map (may_play (queues_in_play queues)) all_pieces },
}

impl Line {
    /// The line of these queues.
    #[tactic(auto, unfolding(crate::specs::SearchState::may_play))]
    pub fn of(queues: QueueSet) -> Line
        ensures { result.queues ≡ queues }
    {
        Line {
            queues,
            may_come: queues.permitted(),
        }
    }

    /// Whether a kind may come next.
    #[tactic(auto, using(crate::proofs::PermitLaws::entry_of))]
    pub fn may_come(&self, piece: Piece) -> bool
        ensures { result ≡ may_play (queues_in_play self.now.queues) piece }
    {
        self.may_come[piece.code() as usize - 1]
    }

    /// Makes this the line after one more piece than another line.
    pub fn follow(&mut self, before: &Line, piece: Piece, memory: &mut QueueMemory)
        requires { IsTrue (may_play (queues_in_play before.now.queues) piece) }
        ensures { queues_in_play self.new.queues ≡ line_after (queues_in_play before.now.queues) piece }
    {
        self.may_come = self.queues.follow(&before.queues, piece, memory);
    }
}
