//! Laws of directories: each is shown once, and calling it does nothing. The last speaks of the definitions alone.
ghost use Rattle.std.specs.Prelude.{◌≡◌, ◌≢◌, ℕ, ◌<◌, Some, List, All};
ghost use Rattle.st_events.specs.declared.machine_id.MachineId.{MachineId};
ghost use Rattle.st_directory.specs.Admission.{HasRoomFor};
ghost use Rattle.st_directory.specs.Changes.{IsGone, LeadTo};
ghost use Rattle.st_directory.specs.DirectoryState.{DirectoryState, found, id_of_name, inserted, removed};
ghost use Rattle.st_directory.specs.InOrder.{IsDirectory};

use crate::{Directory, Vacancy};

/// In each directory a name stands once and names a value that is there, no two names name one value, no two values have
/// one slot or one serial, and there are 65,536 values at most.
///
/// Ours: docs/DECISIONS.md, Directories.
pub fn a_directory_is_in_order<T>(directory: &Directory<T>)
    ensures { IsDirectory directory.now.state }
{
    let _ = &directory.begun;
}

/// The id that a value gets was no id before: its serial is greater than that of each value in the directory, and it is
/// none of those that are gone.
///
/// Ours: docs/DECISIONS.md, Directories.
pub fn a_new_id_was_no_id_before<T>(directory: &Directory<T>, vacancy: &Vacancy)
    requires { HasRoomFor directory.now vacancy.now }
    ensures values { All (λ (value : MachineId × T). value.0.serial < vacancy.now.id.serial) directory.now.state.values }
    ensures gone { (id : MachineId) → IsGone id directory.now.state → id ≢ vacancy.now.id }
{
    let _ = &directory.begun;
}

/// A value that is put in is found under its id, and under its name, if it has one; each other id names what it named.
///
/// Ours: docs/DECISIONS.md, Directories.
pub fn an_inserted_value_is_found<T>(directory: &Directory<T>, vacancy: &Vacancy)
    requires { HasRoomFor directory.now vacancy.now }
    ensures id { (value : T) → found vacancy.now.id (inserted vacancy.now value directory.now.state) ≡ Some value }
    ensures name { (value : T) (name : List ℕ) → vacancy.now.name ≡ Some name → id_of_name name (inserted vacancy.now value directory.now.state) ≡ Some vacancy.now.id }
    ensures others { (value : T) (other : MachineId) → other ≢ vacancy.now.id → found other (inserted vacancy.now value directory.now.state) ≡ found other directory.now.state }
{
    let _ = &directory.begun;
}

/// An id whose value is removed names nothing for good: whatever values come in and go, and whatever names are taken out.
///
/// Ours: docs/DECISIONS.md, Directories.
pub fn a_gone_id_stays_gone<T>(_directory: &Directory<T>)
    ensures removed { (old : DirectoryState T) (id : MachineId) (value : T) → IsDirectory old → found id old ≡ Some value → IsGone id (removed id old) }
    ensures stays { (old last : DirectoryState T) (between : List (DirectoryState T)) (id : MachineId) → LeadTo old between last → IsGone id old → IsGone id last }
{}
