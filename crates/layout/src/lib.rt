// Which ledger a set of lent tables stands for: the layout of docs/LAYOUT.md, and what makes tables well formed. The only code here is the tables as one
// value: tests, work and the public calls stand above, and the functions below do nothing but make the laws part of the build.
//
//   specs/Tables    the five lent tables, what they hold, and their lengths
//   specs/Encodes   tables stand for a ledger: the layout alone
//   specs/Formed    well formed: some sound ledger is encoded; for finish more
//   specs/Reads     a read: what is asked of the ledger in the tables, and what is handed out for its answer
//   specs/Relations, Files   what each call does to them: the public contracts
//   specs/Law       what is proved of all this
//   proofs/Opening  a freshly opened index
//   proofs/Pieces   the pieces of a table and of its ledger
//   proofs/Unique   one ledger for each set of tables
//   proofs/ReadLaws what the ledger of a closed index answers, and what is handed out
//   proofs/Trees    what its tables say of a kind's tree and of the live blocks
//   proofs/TreeRows the rows of nodes and entries that trees have
//   proofs/Exists*  every sound ledger that fits the lent lengths has tables
//   proofs/Depths   the tree of pieces is not deep

#![tactic(auto)]

ghost use Rattle.layout.specs.Law.{OneLedger, TablesExist, ShallowTrees};

// The five lent tables of an index, for a call that reads them. Those that change an index are lent each table by itself.
#[derive(Clone, Copy)]
pub struct Tables<'a> {
    pub pieces: &'a [u64],
    pub blocks: &'a [u64],
    pub store: &'a [u8],
    pub nodes: &'a [u64],
    pub entries: &'a [u64],
}

// Tables stand for one ledger at most.
pub fn one_ledger()
    ensures { OneLedger }
{}

// Every sound ledger that fits what is lent has tables.
#[tactic(auto, using(crate::proofs::Exists::tables_exist))]
pub fn tables_exist()
    ensures { TablesExist }
{}

// 4,096 pieces are at most 16 deep, and no table's are deeper than 92.
#[tactic(auto, using(crate::proofs::Depths::shallow_trees))]
pub fn shallow_trees()
    ensures { ShallowTrees }
{}
