//! A transaction file that was read.
ghost use Rattle.std.specs.Prelude.{◌≡◌, ◌<◌, ◌≤◌, ◌^◌, [], length, IfOk};
ghost use Rattle.cl_costs.specs.Schedules.{AreEpochs};
ghost use Rattle.cl_file.specs.Entries.{NeverFall};
ghost use Rattle.cl_file.specs.Files.{total, AreOnce};

use crate::Entry;
use crate::holders::listed;
use cl_c32::Principal;
use cl_costs::CostTable;
use cl_keyed::HashKey;
use cl_types::NoMemory;
use indexmap::IndexMap;
use std::alloc::Global;
use std::marker::Model;

/// The holders of the first state, each once; the epochs, at most 64; and the entries, at most
/// 100,000. What the holders have together is below 2^128, the heights of epochs are at least 1 and
/// rise strictly, and those of blocks never fall.
pub struct TxFile {
    genesis: IndexMap<Principal, u128, HashKey>,
    epochs: Vec<(u64, CostTable)>,
    entries: Vec<Entry>,
}

impl Drop for TxFile {
    fn drop(self) {
        let TxFile {
            genesis,
            epochs,
            entries,
        } = self;
        drop(genesis);
        drop(epochs);
        drop(entries);
    }
}

impl Model for TxFile {
    ghost use Rattle.std.specs.Prelude.{◌<◌, ◌≤◌, ◌^◌, List, [], ℕ, length, refl};
    ghost use Rattle.std.specs.Coded.{code_by, coded_list, coded_ℕ, coded×};
    ghost use Rattle.cl_c32.specs.contracts.principal.Principal as principal;
    ghost use Rattle.cl_c32.specs.declared.principal.Principal.{Principal as APrincipal};
    ghost use Rattle.cl_file.specs.contracts.entry.Entry as entry;
    ghost use Rattle.cl_file.specs.declared.entry.Entry.{Entry as AnEntry};
    ghost use Rattle.cl_costs.specs.contracts.table.CostTable as table;
    ghost use Rattle.cl_costs.specs.Schedules.{Epoch, AreEpochs};
    ghost use Rattle.cl_file.specs.Files.{FileSeen, total, AreOnce};
    ghost use Rattle.cl_file.specs.Entries.{NeverFall};

    ghost Value = { FileSeen };

    ghost coded = { code_by (List (APrincipal × ℕ) × (List Epoch × List AnEntry))
        (coded× (coded_list (coded× principal.the_row.coded coded_ℕ))
        (coded× (coded_list (coded× coded_ℕ table.the_row.coded)) (coded_list entry.the_row.coded)))
        (λ f. (f.genesis, (f.epochs, f.entries)))
        (λ p. record { genesis = p.0; epochs = p.1.0; entries = p.1.1 }) (λ _. refl) };

    ghost view = { λ f. record {
      genesis = f.genesis.entries;
      epochs = f.epochs.items;
      entries = f.entries.items;
    } };

    ghost invariant = { λ f. (total f.genesis.entries < 2 ^ 128) × AreOnce [] f.genesis.entries
        × AreEpochs f.epochs.items × (length f.entries.items ≤ 100000) × NeverFall 0 f.entries.items };
}

impl TxFile {
    /// The file of these holders, epochs and entries.
    pub fn new(
        genesis: IndexMap<Principal, u128, HashKey>,
        epochs: Vec<(u64, CostTable)>,
        entries: Vec<Entry>,
    ) -> TxFile
        requires total { total genesis.entries < 2 ^ 128 }
        requires once { AreOnce [] genesis.entries }
        requires epochs { AreEpochs epochs.items }
        requires few { length entries.items ≤ 100000 }
        requires rising { NeverFall 0 entries.items }
        ensures { result ≡ record {
          genesis = genesis.entries;
          epochs = epochs.items;
          entries = entries.items;
        } }
    {
        TxFile {
            genesis,
            epochs,
            entries,
        }
    }

    /// The key by which the table of the holders hashes, and by which others over this file may: that of the file's bytes, where it
    /// was read.
    pub fn hash_key(&self) -> HashKey {
        *self.genesis.hasher()
    }

    /// The holders of the first state, each once, with their STX.
    pub fn genesis(&self, alloc: Global) -> Result<Vec<(Principal, u128)>, NoMemory>
        ensures value { IfOk result (λ holders. holders.items ≡ self.now.genesis) }
        ensures total { total self.now.genesis < 2 ^ 128 }
        ensures once { AreOnce [] self.now.genesis }
    {
        listed(alloc, &self.genesis)
    }

    /// The epochs, each with its height and its table, in their order.
    pub fn epochs(&self) -> &[(u64, CostTable)]
        ensures value { result.now ≡ self.now.epochs }
        ensures within { AreEpochs result.now }
    {
        self.epochs.as_slice()
    }

    /// The entries, in their order.
    pub fn entries(&self) -> &[Entry]
        ensures value { result.now ≡ self.now.entries }
        ensures within { length result.now ≤ 100000 }
        ensures rising { NeverFall 0 result.now }
    {
        self.entries.as_slice()
    }
}
