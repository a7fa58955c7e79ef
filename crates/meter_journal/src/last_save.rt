//! `LastSave`: how many lines of a journal are on the disk, and of which history they are.
ghost use Rattle.std.specs.Prelude.{◌≡◌, ⊤, ℕ, List, []};
ghost use Rattle.atomic_table.specs.Seated.{TableId};
ghost use Rattle.turn_lock.specs.Calls.{Watches};
ghost use Rattle.turn_lock.specs.Shown.{IsSame};
ghost use Rattle.shared_meter.specs.Calls.{IsLegal};
ghost use Rattle.shared_meter.specs.Settling.{AreDurable};
ghost use Rattle.meter_journal.specs.Saving.{AreOnDisk};
ghost use Rattle.meter_journal.specs.declared.fault.JournalFault.{JournalFault};

use durable_lines::DurableFile;
use shared_meter::Kept;
use std::marker::{Brand, Model, PhantomData};
use std::mem;
use turn_lock::{Note, Port};

/// Which journal it is: the lock of the meter whose lines it has, and the file that has them.
///
/// The handles of a journal have a type parameter with this bound, so that no handle waits for the
/// lines of another meter, or for those in another file. The call that begins a journal picks the
/// lock and the file, by [`Brand`](std::marker::Brand).
pub trait JournalIdentity {
    /// Ghost value: the lock.
    ghost lock: { TableId };

    /// Ghost value: the number of the file.
    ghost file: { ℕ };

    /// Ghost value: the lines that the file had before those of the meter.
    ghost first: { List (List ℕ) };

    /// Ghost predicate: the journal may be asked to end. Who starts and stops the worker has this
    /// permission. The worker learns it only by being asked, and a session only from the record
    /// that the journal has ended.
    ghost may_end: { Type 0 };

    /// Ghost predicate: the journal may fail with this fault. The worker has this permission for
    /// the faults of a save (`IsSaveFault`), and a session learns it only from the record that the
    /// journal has failed.
    ghost may_fail: { JournalFault → Type 0 };
}

/// The type argument of a call that picks the journal.
impl JournalIdentity for Brand {
    ghost lock = { record {
      words = 0;
      slots = 0;
      views_name = 0;
      atom = 0;
      block = 0;
      offset = 0;
      slot_names = [];
    } };

    ghost file = { 0 };

    ghost first = { [] };

    ghost may_end = { ⊤ };

    ghost may_fail = { λ _. ⊤ };
}

// The number of lines that the last save has put on the disk, and a note of the history whose first
// lines they are. Contracts see the number.
#[derive(Drop)]
pub(crate) struct LastSave<F: DurableFile, L: JournalIdentity> {
    count: u64,
    note: Note<Kept>,
    marker: PhantomData<(F, L)>,
}

impl<F: DurableFile, L: JournalIdentity> Model for LastSave<F, L> {
    ghost Value = { ℕ };

    ghost view = { λ s. s.count };

    ghost invariant = { λ s. (s.note.lock ≡ L.lock)
        × (AreOnDisk F.model L.file L.first s.note.seen s.count) };
}

impl<F: DurableFile, L: JournalIdentity> LastSave<F, L> {
    // Returns a save of the first lines of the port's history, of this number.
    pub(crate) fn new(port: &mut Port<Kept>, count: u64) -> LastSave<F, L>
        requires lock { port.old.lock ≡ L.lock }
        requires synced { AreOnDisk F.model L.file L.first port.old.known.seen count }
        ensures { port.new ≡ port.old }
    {
        LastSave {
            count,
            note: port.tell(),
            marker: PhantomData,
        }
    }

    // Records that the first lines of the port's history, of this number, are on the disk.
    pub(crate) fn update(&mut self, port: &mut Port<Kept>, count: u64)
        requires lock { port.old.lock ≡ L.lock }
        requires synced { AreOnDisk F.model L.file L.first port.old.known.seen count }
        ensures { port.new ≡ port.old }
    {
        self.count = count;
        self.note = port.tell();
    }

    // Shows the port the history whose lines are on the disk, and returns their number.
    pub(crate) fn show(&mut self, port: &mut Port<Kept>) -> u64
        requires { port.old.lock ≡ L.lock }
        ensures same { IsSame port.old port.new }
        ensures watches { Watches IsLegal port.old.known port.new.known }
        ensures durable { AreDurable (AreOnDisk F.model L.file L.first) port.new.known.seen result }
    {
        let own = port.tell();
        let note = mem::replace(&mut self.note, own);
        port.meet(note);
        self.note = port.tell();
        self.count
    }
}
