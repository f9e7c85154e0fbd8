//! A bank that keeps its records in a table.
#![tactic(auto)]

ghost use Rattle.std.specs.Prelude.{◌≡◌, true, IfOk, Some, replicate, vec_len};
ghost use Rattle.banks.specs.Calls.{answered, fetch_fault};
ghost use Rattle.banks.specs.Making.{NewBank, empty_bank};
ghost use Rattle.banks.specs.declared.fault.BankFault.TheVariants as fault;
ghost use Rattle.std.specs.List.{All};
ghost use Rattle.tablebank.specs.Table.{HasEntries, kept, reaches, sound_sizes, table_refusal};
ghost use Rattle.tablebank.specs.Tables.{table_lawful};

use banks::bank::Bank;
use banks::fault::BankFault;
use banks::record::{Kept, Record, Sizes};
use std::alloc::{AllocError, Global};
use values::value::Value;

/// A station: whether it is in reach, and the records that it keeps, one for each entry.
#[derive(Drop)]
struct Row {
    reach: bool,
    records: Vec<Kept>,
}

/// A bank that keeps its records in a table, a row for each station.
#[derive(Drop)]
pub struct TableBank {
    sizes: Sizes,
    rows: Vec<Row>,
    ghost sound: { sound_sizes sizes ≡ true },
    ghost stations: { vec_len rows ≡ sizes.stations },
    ghost entries: { All (HasEntries sizes.entries) rows.items },
}

/// The rows of a new bank: all stations in reach, and every record is this one.
fn new_rows(heap: Global, sizes: &Sizes, first: Kept) -> Result<Vec<Row>, AllocError>
    ensures reaches { IfOk result (λ v. reaches v.items ≡ replicate sizes.now.stations true) }
    ensures records { IfOk result (λ v. kept v.items ≡ replicate sizes.now.stations (replicate sizes.now.entries first)) }
{
    let mut rows = Vec::new(heap);
    for _ in 0..sizes.stations {
        let records = vec![in heap; first; sizes.entries as usize]?;
        rows.push(Row {
            reach: true,
            records,
        })?;
    }
    Ok(rows)
}

impl TableBank {
    ghost use Rattle.tablebank.specs.Meant.{meant};

    /// A new bank for values of this kind: all stations in reach, and every record at number 1 with the blank. Where the
    /// kind or the sizes are out of their limits, an empty bank that tells so.
    pub fn new<V: Value + Drop>(
        heap: Global,
        stations: u32,
        entries: u32,
    ) -> Result<TableBank, AllocError>
        ensures { IfOk result (λ b. NewBank V.Value.KIND (V.Value.coded V.Value.empty) stations entries (meant b) (table_refusal b.sizes)) }
    {
        let Ok(sizes) = Sizes::of::<V>(stations, entries) else {
            return Ok(TableBank::empty(heap));
        };
        let first = Kept::first(&V::blank());
        let rows = new_rows(heap, &sizes, first)?;
        Ok(TableBank { sizes, rows })
    }

    /// A bank with no stations and no entries.
    fn empty(heap: Global) -> TableBank
        ensures { (meant result ≡ empty_bank) × (table_refusal result.sizes ≡ Some fault.Sizes) }
    {
        TableBank {
            sizes: Sizes::default(),
            rows: Vec::new(heap),
        }
    }

    /// Why the bank is empty, if its making was refused: a refused bank stands, without stations.
    pub fn refusal(&self) -> Option<BankFault>
        ensures { result ≡ table_refusal self.now.sizes }
    {
        (self.sizes.stations == 0).then_some(BankFault::Sizes)
    }

    /// Refuses a station that is none, an entry that is none, and a station that is away, in this order.
    fn check(&self, station: u32, entry: u32) -> Result<(), BankFault>
        ensures { result ≡ answered (fetch_fault (meant self.now) station entry) tt }
    {
        let reach = self.in_reach(station);
        self.sizes.check_call(station, entry, reach)
    }
}

impl Bank for TableBank {
    ghost use Rattle.tablebank.specs.Meant.{meant};

    ghost meaning = { meant };

    ghost lawful = { λ b. table_lawful b.sizes b.rows.items b.sound };

    fn sizes(&self) -> Sizes {
        self.sizes
    }

    fn in_reach(&self, station: u32) -> Result<bool, BankFault> {
        self.sizes.check_station(station)?;
        Ok(self.rows[station as usize - 1].reach)
    }

    fn fetch(&self, station: u32, entry: u32) -> Result<Record, BankFault> {
        self.check(station, entry)?;
        Ok(self.rows[station as usize - 1].records[entry as usize - 1].get())
    }

    fn store(&mut self, station: u32, entry: u32, kept: Record) -> Result<(), BankFault> {
        self.check(station, entry)?;
        let kept = Kept::new(kept).ok_or(BankFault::OutOfLimits(entry))?;
        self.rows[station as usize - 1].records[entry as usize - 1] = kept;
        Ok(())
    }

    fn set_reach(&mut self, station: u32, reach: bool) -> Result<(), BankFault> {
        self.sizes.check_station(station)?;
        self.rows[station as usize - 1].reach = reach;
        Ok(())
    }
}
