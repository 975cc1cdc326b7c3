//! What is printed phase by phase is the text of the history: the answers of the clients' own records are those of each history that has
//! these records, in whatever order; where each client has played the first so many phases, exactly their lines are answered; and the answers
//! of a phase are printed after those of the phases before.
//!
//! To the layers above it promises this of every list of records in which each client's are steps of its own. It speaks of definitions
//! alone, and knows nothing of code.
#![tactic(auto)]

ghost use Rattle.std.specs.Prelude.{◌≡◌, ◌++◌, ◌<◌, ◌≤◌, ℕ, List, length, true, None, Some, slice_get};
ghost use Rattle.std.specs.List.Sorted.{IsPermutation};
ghost use Rattle.script_lines.specs.declared.request.Line.{Line};
ghost use Rattle.script_lines.specs.declared.script.Script.{Script};
ghost use Rattle.spec_rules.specs.Clients.{Client};
ghost use Rattle.spec_rules.specs.Lists.{In};
ghost use Rattle.spec_rules.specs.World.{lines_of, next_line, setting_of};
ghost use Rattle.spec_history.specs.Order.{AnswersPhases, AreRising, all_answered};
ghost use Rattle.spec_history.specs.Text.{answers_of, text_of};
ghost use Rattle.spec_history.specs.declared.record.Record.{Record};
ghost use Rattle.law_printed.specs.Answers.{AnswerAlone, AnswerNothing, HaveParts};
ghost use Rattle.law_printed.specs.Clients.{AreClients, AreOfClients, AreServers, EachIsBy, HaveAllPlayed, WentOn, all_records};
ghost use Rattle.law_printed.specs.Played.{HasPlayed, HavePlayed, PhasesRise};

/// The answers of a history are those of its clients' records: what else stands in it, and in which order, makes no difference.
pub fn printed_is_the_history()
    ensures answers { (script : Script) (others own history : List Record) → AreRising script.lines → AnswerNothing others → AnswerAlone script own
        → IsPermutation (others ++ own) history → answers_of history ≡ answers_of own }
    ensures text { (script : Script) (others own history : List Record) → AreRising script.lines → AnswerNothing others → AnswerAlone script own
        → IsPermutation (others ++ own) history → text_of history ≡ text_of own }
    ensures lists { (script : Script) (servers clients : List (List Record)) (history : List Record) → AreRising script.lines → AreServers script servers
        → AreClients script clients → IsPermutation (all_records (servers ++ clients)) history
        → (answers_of history ≡ answers_of (all_records clients)) × (text_of history ≡ text_of (all_records clients)) }
{}

/// Where each client has played the first so many phases, exactly their lines are answered.
pub fn played_phases_are_answered()
    ensures phases { (script : Script) (phases : ℕ) (records : List Record) → AreRising script.lines → AnswerAlone script records
        → HavePlayed script phases records → AnswersPhases phases script.lines records }
    ensures all { (script : Script) (phases : ℕ) (records : List Record) → AreRising script.lines → AnswerAlone script records
        → HavePlayed script phases records → ((line : Line) → In line script.lines → line.phase < phases)
        → all_answered (answers_of records) script.lines ≡ true }
    ensures history { (script : Script) (phases : ℕ) (servers clients : List (List Record)) (history : List Record) → AreRising script.lines
        → AreServers script servers → AreClients script clients → IsPermutation (all_records (servers ++ clients)) history
        → AreOfClients (length clients) script.lines → HaveAllPlayed script phases clients → AnswersPhases phases script.lines history }
    ensures whole { (script : Script) (phases : ℕ) (servers clients : List (List Record)) (history : List Record) → AreRising script.lines
        → AreServers script servers → AreClients script clients → IsPermutation (all_records (servers ++ clients)) history
        → AreOfClients (length clients) script.lines → HaveAllPlayed script phases clients
        → ((line : Line) → In line script.lines → line.phase < phases) → all_answered (answers_of history) script.lines ≡ true }
{}

/// What the clients answer after the first so many phases stands after the text of these.
pub fn a_phase_is_printed_after_those_before()
    ensures answers { (script : Script) (phases : ℕ) (before since after : List Record) → AreRising script.lines → PhasesRise script.lines
        → AnswerAlone script after → HaveParts before since after → HavePlayed script phases before
        → answers_of after ≡ answers_of before ++ answers_of since }
    ensures text { (script : Script) (phases : ℕ) (before since after : List Record) → AreRising script.lines → PhasesRise script.lines
        → AnswerAlone script after → HaveParts before since after → HavePlayed script phases before
        → text_of after ≡ text_of before ++ text_of since }
    ensures lists { (script : Script) (phases : ℕ) (olds sinces news : List (List Record)) → AreRising script.lines → PhasesRise script.lines
        → AreOfClients (length news) script.lines → AreClients script news → WentOn olds sinces news → HaveAllPlayed script phases olds
        → text_of (all_records news) ≡ text_of (all_records olds) ++ text_of (all_records sinces) }
{}

/// What these laws ask of a list of records holds of the clients' lists, one after the other, where it holds of each.
pub fn the_clients_lists_are_such_a_list()
    ensures alone { (script : Script) (lists : List (List Record)) → AreClients script lists → AnswerAlone script (all_records lists) }
    ensures played { (script : Script) (phases : ℕ) (lists : List (List Record)) → EachIsBy lists → AreOfClients (length lists) script.lines
        → HaveAllPlayed script phases lists → HavePlayed script phases (all_records lists) }
    ensures parts { (olds sinces news : List (List Record)) → EachIsBy olds → EachIsBy sinces → EachIsBy news → WentOn olds sinces news
        → HaveParts (all_records olds) (all_records sinces) (all_records news) }
{}

/// A client that has nothing open and has called no line of a later phase has played the first so many phases where its next line is of a
/// later one, or it has none.
pub fn phases_are_played_where_the_next_line_is_later()
    ensures { (script : Script) (phases c : ℕ) (client : Client) → AreRising script.lines → PhasesRise script.lines → client.asked ≡ None
        → ((place : ℕ) (line : Line) → slice_get (lines_of script.lines c) place ≡ Some line → place < client.seq → line.phase < phases)
        → ((line : Line) → next_line script.lines c client ≡ Some line → phases ≤ line.phase)
        → HasPlayed (setting_of script) phases c client }
{}
