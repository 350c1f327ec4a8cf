ghost use Rattle.std.specs.Prelude.{◌≡◌};
ghost use Rattle.gx_agenda.specs.Moves.{IsAdvanced, next_place};

use gx_ids::Seq;

/// Where a session stands: the places of its lines in the file, and how many of them were started and answered.
#[derive(Drop)]
pub struct Standing {
    pub places: Seq<usize>,
    pub started: usize,
    pub answered: usize,
}

/// Where a session's next line stood, and where it stands now; none where the session isn't idle or has no line left.
#[derive(Clone, Copy)]
pub struct Move {
    pub from: Option<usize>,
    pub to: Option<usize>,
}

impl Standing {
    /// The place of the session's next line; none where the session isn't idle or has no line left.
    pub fn next_place(&self) -> Option<usize>
        ensures { result ≡ next_place self.now }
    {
        if self.started == self.answered {
            self.places.as_slice().get(self.started).copied()
        } else {
            None
        }
    }

    /// So many more of its lines were started, and so many answered. A count stops at what it can hold.
    pub fn advance(&mut self, starts: usize, answers: usize) -> Move
        ensures { IsAdvanced self.old self.new starts answers result }
    {
        let from = self.next_place();
        self.started = self.started.saturating_add(starts);
        self.answered = self.answered.saturating_add(answers);
        let to = self.next_place();
        Move { from, to }
    }
}
