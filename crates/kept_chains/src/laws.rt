//! What a store tells of its entries is what the rules read in its chains.

ghost use Rattle.std.specs.Prelude.{◌≡◌, List, length};
ghost use Rattle.petal_base.specs.declared.cell.Cell.{Cell};
ghost use Rattle.petal_base.specs.declared.cell.Key.{Key};
ghost use Rattle.petal_base.specs.Cells.{cell_of};
ghost use Rattle.spec_rules.specs.Store as rules;
ghost use Rattle.physical_map.specs.Entries.{version_of, top_of};
ghost use Rattle.physical_map.specs.Keys.{placed, newest, IsInOrder};
ghost use Rattle.server_store.specs.Holdings.{Held, key_held, listed, content_of};
ghost use Rattle.kept_chains.specs.Kept.{stored_of, chains_of};

/// A put of an entry is a put into the chains.
pub fn a_put_is_an_entry_more()
    ensures { (entries : List Held) (held : Held)
        → chains_of (placed key_held entries held) ≡ rules.chains_with (chains_of entries) (key_held held) (stored_of held) }
{}

/// What a read finds is the entry of its cell's chain of the greatest epoch not above.
pub fn a_read_finds_the_chains_entry()
    ensures { (entries : List Held) (key : Key) → IsInOrder key_held entries
        → content_of (newest key_held key entries) ≡ rules.bytes_of (rules.entry_at (rules.chain_in (chains_of entries) (cell_of key)) key.epoch) }
{}

/// The greatest versions and the number of entries agree.
pub fn versions_and_counts_agree()
    ensures cell { (entries : List Held) (cell : Cell) → IsInOrder key_held entries
        → version_of cell (listed entries) ≡ rules.version_of (rules.chain_in (chains_of entries) cell) }
    ensures all { (entries : List Held) → IsInOrder key_held entries → top_of (listed entries) ≡ rules.top_of (chains_of entries) }
    ensures count { (entries : List Held) → IsInOrder key_held entries → rules.entries_of (chains_of entries) ≡ length entries }
{}
