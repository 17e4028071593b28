// Every promise at once: the functions without work of all crates are called here, in the order in which README tells what is proved, and their
// statements are the contracts. So none of them can be left out or changed unseen.
//
//   specs/Promises    the statements, gathered
//   specs/Relations   the contracts of the public calls are the relations that the theorems speak of (proofs/Citing)
//   specs/Exported    and so are those of the calls for Rust and C, at the number that they give; ExportedTested: those after one test
//   specs/Meanings    no two answers of a call mean the same (proofs/Telling)

#![tactic(auto)]

ghost use Rattle.promises.specs.Relations.{Contracts};
ghost use Rattle.promises.specs.Exported.{Exported};
ghost use Rattle.promises.specs.ExportedTested.{ExportedTested};
ghost use Rattle.promises.specs.Meanings.{Meanings};
ghost use Rattle.promises.specs.Promises.{OfCalls, OfTables, OfHistory, OfTested, OfFiles, OfPrograms};

// The contract of each public call is its relation, and asks nothing of the caller.
#[tactic(auto, using(crate::proofs::Citing::contracts))]
pub fn contracts_are_relations()
    ensures { Contracts }
{}

// So is that of each call for Rust and C, at the answer that its number and values stand for.
#[tactic(auto, using(crate::proofs::Citing::exported))]
pub fn exported_calls()
    ensures { Exported }
{}

// Each call after one test has that of the public call of its name, wherever the state is true.
#[tactic(auto, using(crate::proofs::Citing::exported_tested))]
pub fn tested_calls()
    ensures { ExportedTested }
{}

// Each answer can be told from its meaning.
#[tactic(auto, using(crate::proofs::Telling::meanings))]
pub fn answers_told()
    ensures { Meanings }
{}

// Over every list of calls.
pub fn of_calls()
    ensures { OfCalls }
{
    demand::demand_3();
    demand::shows_history();
    demand::touching_shows_history();
    reports_law::occupation_shows_history();
    record_all::records_written_out();
    contracts_are_relations();
    answers_told();
}

// Which tables are well formed.
pub fn of_tables()
    ensures { OfTables }
{
    layout::one_ledger();
    layout::tables_exist();
    index_test::test_decides();
    layout::shallow_trees();
    growth::longer_tables();
    growth::grown_boards();
}

// The definitions, over plain lists.
pub fn of_history()
    ensures { OfHistory }
{
    history::value_at();
    history::law_of_change();
    history::law_of_calls();
    history::law_of_find();
    history::law_of_touching();
    history::law_of_neighbours();
    history::law_of_hours();
    history::law_of_days();
    history::law_of_sums();
    history::law_of_occupation();
    history::law_of_charges();
    history::marked_boards();
    history::requested_boards();
    history::report_boards();
    apart_laws::theorem_h();
    tree_room::law_of_room();
}

// The calls after one test.
pub fn of_tested()
    ensures { OfTested }
{
    index_tested::test_keeps();
    index_tested::finish_closes();
    sessions::states_follow();
    sessions::growth_keeps();
    sessions::sessions_hold();
    tested_calls();
}

// Files, there and back.
pub fn of_files()
    ensures { OfFiles }
{
    spacetime_file::saved_and_loaded();
    spacetime_file::loaded_and_written();
    spacetime_file::taken_and_not_refused();
    spacetime_file::empty_files();
}

// The program and the library.
pub fn of_programs()
    ensures { OfPrograms }
{
    board_input::law_of_input();
    board_text::law_of_lines();
    lengths::lengths_hold();
    exported_calls();
}
