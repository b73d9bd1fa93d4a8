//! What is counted of the lines of a soak.
ghost use Rattle.std.specs.Prelude.{◌≡◌};
ghost use Rattle.artheap_top.specs.Summary.{tells_collection};

use script_lang::Reply;

/// How many lines were run, how many of their replies are refusals, and how many tell a collection.
#[derive(Clone, Copy)]
pub(crate) struct Tally {
    pub(crate) lines: u64,
    pub(crate) refused: u64,
    pub(crate) collections: u64,
}

/// Whether a reply tells a collection.
fn tells_collection(reply: &Reply) -> bool
    ensures { result ≡ tells_collection reply.now }
{
    match *reply {
        Reply::Made { collected, .. } => collected,
        Reply::Kept { .. } => true,
        _ => false,
    }
}

impl Tally {
    ghost use Rattle.std.specs.Prelude.{◌≡◌, ◌+◌, ◌<◌, ◌^◌};
    ghost use Rattle.artheap_top.specs.Soaking.{IsWithinLines, counted, no_lines};

    /// No line was run.
    pub(crate) fn new() -> Tally
        ensures { result ≡ no_lines }
    {
        Tally {
            lines: 0,
            refused: 0,
            collections: 0,
        }
    }

    /// Counts a line, and its reply if it has one.
    pub(crate) fn count(&mut self, reply: Option<Reply>)
        requires few { self.old.lines < 2 ^ 63 }
        requires within { IsWithinLines self.old }
        ensures counted { self.new ≡ counted self.old reply }
        ensures lines { self.new.lines ≡ self.old.lines + 1 }
        ensures within { IsWithinLines self.new }
    {
        self.lines += 1;
        let Some(reply) = reply else {
            return;
        };
        self.refused += u64::from(reply.is_refused());
        self.collections += u64::from(tells_collection(&reply));
    }
}
