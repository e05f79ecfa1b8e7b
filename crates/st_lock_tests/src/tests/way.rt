//! How a machine comes to be shared.

/// How a machine comes to be shared by threads: whether it fills a vacant one, and whether it keeps its journal.
#[derive(Clone, Copy)]
pub struct Way {
    pub fills: bool,
    pub keeps: bool,
}

/// It is new, and keeps its journal.
pub const NEW: Way = Way {
    fills: false,
    keeps: true,
};

/// It fills a vacant one, and keeps its journal.
pub const FILLED: Way = Way {
    fills: true,
    keeps: true,
};

/// It is new, and keeps no journal.
pub const NEW_UNJOURNALED: Way = Way {
    fills: false,
    keeps: false,
};

/// It fills a vacant one, and keeps no journal.
pub const FILLED_UNJOURNALED: Way = Way {
    fills: true,
    keeps: false,
};
