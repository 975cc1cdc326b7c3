//! What is plain of the rules.

ghost use Rattle.std.specs.Prelude.{◌≡◌, ◌≢◌, ◌↔◌, ◌≤◌, ◌+◌, ℕ, List, Option, Some, None, false};
ghost use Rattle.std.specs.Ordering.{nat_cmp};
ghost use Rattle.petal_base.specs.Cells.{cell_of};
ghost use Rattle.petal_base.specs.Limits.{client_limit};
ghost use Rattle.petal_base.specs.Origins.{Named};
ghost use Rattle.petal_base.specs.declared.cell.Key.{Key};
ghost use Rattle.client_rows.specs.Rows.{rows_after};
ghost use Rattle.petal_table.specs.Table.{at, put};
ghost use Rattle.petal_msg.specs.declared.letter.Actor.{Actor};
ghost use Rattle.petal_msg.specs.declared.letter.Letter.{Letter};
ghost use Rattle.petal_msg.specs.declared.operation.Action.TheVariants.{Drop};
ghost use Rattle.petal_msg.specs.declared.operation.Ending.{Ending};
ghost use Rattle.petal_msg.specs.declared.operation.FollowProgress.TheVariants.{Replicated};
ghost use Rattle.petal_msg.specs.declared.operation.Finished.{Finished};
ghost use Rattle.petal_msg.specs.declared.operation.LastOp.{LastOp};
ghost use Rattle.petal_msg.specs.declared.operation.Pending.{Pending};
ghost use Rattle.spec_rules.specs.Lists.{In};
ghost use Rattle.spec_rules.specs.State.{State, is_lead, leads_link};
ghost use Rattle.spec_rules.specs.Store.{chain_in, version_of};
ghost use Rattle.spec_rules.specs.Server.{PairState, JobContext, silent};
ghost use Rattle.spec_rules.specs.Writes.{Wanted, finishes, follows, last_on, next_stage, on_replicate, on_write};
ghost use Rattle.spec_rules.specs.World.{Setting, World, step};
ghost use Rattle.spec_rules.specs.declared.step.Step.{Step};

/// An operation is dropped exactly where this server does not lead the link of its cell.
pub fn drops_where_not_lead()
    ensures { (state : State) (me : ℕ) (op : Pending) → (next_stage state me op ≡ Drop) ↔ (leads_link state me op.cell ≡ false) }
{}

/// Whatever step is taken, the letters that were ever sent are still those that can be delivered, and the step's own join
/// them.
pub fn letters_stay_sent()
    ensures stay { (who : Actor) (what : Step) (setting : Setting) (w : World) (stamp : ℕ) (letter : Letter) → In letter w.sent
        → In letter (step who what setting w stamp).world.sent }
    ensures join { (who : Actor) (what : Step) (setting : Setting) (w : World) (stamp : ℕ) (letter : Letter)
        → In letter (step who what setting w stamp).letters → In letter (step who what setting w stamp).world.sent }
{}

/// A server that is not the cell's lead takes no write, and no server takes one that is of none of the clients that write.
pub fn only_the_lead_takes_a_write()
    ensures lead { (here : JobContext) (own : PairState) (want : Wanted) → is_lead here.state here.me want.cell ≡ false → on_write here own want ≡ silent own }
    ensures writer { (here : JobContext) (own : PairState) (want : Wanted) → client_limit ≤ want.client → on_write here own want ≡ silent own }
{}

/// A request that its lead has finished, or that is older, changes nothing there: it is answered again or dropped.
pub fn a_finished_request_changes_nothing()
    ensures { (here : JobContext) (own : PairState) (want : Wanted) (last : Finished)
        → at nat_cmp own.pairs.finished want.client ≡ Some last → want.seq ≤ last.seq
        → (on_write here own want).own ≡ own }
{}

/// What ends a client's request is remembered at its lead.
pub fn an_ended_request_is_remembered()
    ensures { (own : PairState) (client seq : ℕ) (ending : Ending)
        → at nat_cmp (finishes own client seq ending).own.pairs.finished client ≡ Some (record { seq = seq; ending = ending }) }
{}

/// The second server puts a copy once, and only for the number whose slot it set apart.
pub fn a_second_copy_is_put_once()
    ensures again { (here : JobContext) (own : PairState) (number : ℕ) (key : Key) (origin : Option Named) (bytes : List ℕ)
        → last_on own (cell_of key) ≡ Some (record { op = number; progress = Replicated }) → (on_replicate here own number key origin bytes).own ≡ own }
    ensures other { (here : JobContext) (own : PairState) (number : ℕ) (key : Key) (origin : Option Named) (bytes : List ℕ) (last : LastOp)
        → last_on own (cell_of key) ≡ Some last → number ≢ last.op → on_replicate here own number key origin bytes ≡ silent own }
    ensures unknown { (here : JobContext) (own : PairState) (number : ℕ) (key : Key) (origin : Option Named) (bytes : List ℕ) → last_on own (cell_of key) ≡ None
        → on_replicate here own number key origin bytes ≡ silent own }
{}

/// A second server that has put its copy has the block's bytes, with the version after that of its chain, and the row of the write that
/// its lead named, and says so to whoever asks for this number again.
pub fn a_second_copy_is_put()
    ensures chain { (here : JobContext) (own : PairState) (number : ℕ) (key : Key) (origin : Option Named) (bytes : List ℕ)
        → chain_in (follows here own number key origin bytes).own.store.chains (cell_of key) ≡ put nat_cmp (chain_in own.store.chains (cell_of key)) key.epoch
        (record { version = version_of (chain_in own.store.chains (cell_of key)) + 1; bytes = bytes }) }
    ensures row { (here : JobContext) (own : PairState) (number : ℕ) (key : Key) (origin : Option Named) (bytes : List ℕ)
        → (follows here own number key origin bytes).own.store.rows ≡ rows_after own.store.rows key.map origin }
    ensures last { (here : JobContext) (own : PairState) (number : ℕ) (key : Key) (origin : Option Named) (bytes : List ℕ)
        → last_on (follows here own number key origin bytes).own (cell_of key) ≡ Some (record { op = number; progress = Replicated }) }
{}
