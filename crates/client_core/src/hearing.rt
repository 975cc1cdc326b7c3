//! What a letter means for the open request.

ghost use Rattle.std.specs.Prelude.{◌≡◌, ℕ, Some, IfOk, if◌then◌else◌};
ghost use Rattle.spec_rules.specs.State.{State};
ghost use Rattle.spec_rules.specs.Clients.{Client, hears};
ghost use Rattle.client_core.specs.Open.{outcome};

use crate::open::Open;
use crate::round::Round;
use petal_base::{NoMemory, Rev, Seq};
use petal_msg::Body;
use script_lines::Answer;

/// What comes of a letter.
#[derive(Drop)]
pub enum Heard {
    /// It does not count.
    Nothing,
    /// It ends the request.
    Answered(Answer),
    /// It asks what follows, and the request is sent again.
    Again,
    /// The new map has nothing, and the request is sent to the old one.
    OldWay,
    /// It shows a server to a settle, which goes on in this round.
    Round(Round),
}

fn answered_if(counts: bool, answer: Answer) -> Heard
    ensures { result ≡ (if counts then Heard.Answered answer else Heard.Nothing) }
{
    if counts {
        Heard::Answered(answer)
    } else {
        Heard::Nothing
    }
}

fn again_if(counts: bool) -> Heard
    ensures { result ≡ (if counts then Heard.Again else Heard.Nothing) }
{
    if counts { Heard::Again } else { Heard::Nothing }
}

fn old_way_if(counts: bool) -> Heard
    ensures { result ≡ (if counts then Heard.OldWay else Heard.Nothing) }
{
    if counts {
        Heard::OldWay
    } else {
        Heard::Nothing
    }
}

impl Open {
    /// What a reply that comes at a revision means for this request.
    pub fn hear(&self, rev: Rev, body: &Body) -> Result<Heard, NoMemory>
        ensures { IfOk result (λ heard. (state : State) (me : ℕ) (client : Client)
            → hears state me client self.now rev body.now ≡ outcome heard state me client (Some self.now)) }
    {
        match body {
            Body::Data { seq, bytes } => Ok(if self.counts(rev, *seq) && self.request.is_read() {
                Heard::Answered(Answer::Data(bytes.share()?))
            } else {
                Heard::Nothing
            }),
            Body::Written { seq } => Ok(answered_if(
                self.counts(rev, *seq) && self.request.is_write(),
                Answer::Ok,
            )),
            Body::Full { seq } => Ok(answered_if(
                self.counts(rev, *seq) && self.request.is_write(),
                Answer::NoSpace,
            )),
            Body::BlockBusy { seq } | Body::Held { seq } => Ok(again_if(self.counts(rev, *seq))),
            Body::NotHere { seq } => Ok(old_way_if(
                self.counts(rev, *seq) && self.request.is_read(),
            )),
            Body::WrongRev { seq } => Ok(again_if(*seq == self.seq)),
            _ => Ok(Heard::Nothing),
        }
    }
}
