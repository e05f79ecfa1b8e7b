//! Where a value goes.
ghost use Rattle.std.specs.Prelude.{◌≡◌};

use st_events::MachineId;
use std::marker::Model;

/// Where the next value of a directory goes: the id that it gets, and a copy of the name that is registered with it, if
/// one is. `Directory::prepare` makes it, and `Directory::insert` takes it. Where it is dropped, the copy of the name goes,
/// and nothing else changes.
///
/// Ours: docs/DECISIONS.md, Directories.
#[derive(Drop)]
pub struct Vacancy {
    pub(crate) id: MachineId,
    pub(crate) name: Option<String>,
}

impl Model for Vacancy {
    ghost use Rattle.std.specs.Prelude.{string_bytes};
    ghost use Rattle.std.specs.Option.{option_map};
    ghost use Rattle.st_directory.specs.DirectoryState.{VacancyState};

    ghost Value = { VacancyState };

    ghost view = { λ vacancy. record { id = vacancy.id; name = option_map string_bytes vacancy.name } };
}

impl Vacancy {
    /// The id that the value gets.
    ///
    /// Ours: docs/DECISIONS.md, Directories.
    pub fn id(&self) -> MachineId
        ensures { result ≡ self.now.id }
    {
        self.id
    }
}
