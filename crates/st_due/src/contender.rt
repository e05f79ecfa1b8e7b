//! What stands at a node of a tournament.
ghost use Rattle.std.specs.Prelude.{◌≡◌, ◌-◌, ◌^◌, None, IsTrue};

use crate::DueMachine;
use st_events::MachineId;

/// What stands at a node of a tournament: a machine with the moment at which it is due, or none. Where there is none,
/// the moment is the last one, so most pairs are told apart by their moments alone.
#[derive(Clone, Copy)]
pub(crate) struct Contender {
    moment: u64,
    machine: Option<MachineId>,
    ghost late: { machine ≡ None → moment ≡ 2 ^ 64 - 1 },
}

impl Contender {
    ghost use Rattle.st_due.specs.Tournament.{seen, earlier};

    /// A machine, or none.
    pub(crate) fn new(machine: Option<DueMachine>) -> Contender
        ensures { seen result ≡ machine }
    {
        match machine {
            Some(due) => Contender {
                moment: due.moment,
                machine: Some(due.machine),
            },
            None => Contender {
                moment: u64::MAX,
                machine: None,
            },
        }
    }

    /// The machine, if there is one.
    pub(crate) fn due(self) -> Option<DueMachine>
        ensures { result ≡ seen self }
    {
        let machine = self.machine?;
        Some(DueMachine {
            moment: self.moment,
            machine,
        })
    }

    /// The one that comes first.
    pub(crate) fn earlier(self, other: Contender) -> Contender
        ensures { seen result ≡ earlier (seen self) (seen other) }
    {
        if self.moment < other.moment {
            return self;
        }
        if other.moment < self.moment {
            return other;
        }
        self.earlier_of_one_moment(other)
    }

    /// The one that comes first, whatever the moments are.
    fn earlier_of_one_moment(self, other: Contender) -> Contender
        ensures { seen result ≡ earlier (seen self) (seen other) }
    {
        match (self.due(), other.due()) {
            (None, _) => other,
            (_, None) => self,
            (Some(first), Some(second)) => {
                if first.is_before(&second) {
                    self
                } else {
                    other
                }
            }
        }
    }

    /// Says whether both are none, or the same machine at the same moment.
    pub(crate) fn is(self, other: Contender) -> bool
        ensures { IsTrue result → seen self ≡ seen other }
    {
        if self.moment != other.moment {
            return false;
        }
        match (self.machine, other.machine) {
            (None, None) => true,
            (Some(one), Some(second)) => one.slot == second.slot && one.serial == second.serial,
            _ => false,
        }
    }
}
