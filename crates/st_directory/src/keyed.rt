//! How names are hashed: by a key that is known, or by one that was drawn at random.

use std::alloc::AllocError;
use std::hash::{BuildHasher, DefaultHasher, RandomState};
use std::random::RandomSource;

/// Hashes names by a key.
#[derive(Clone, Copy)]
pub(crate) struct Keyed {
    /// The hasher that the key makes, before any name.
    begun: DefaultHasher,
}

impl Keyed {
    /// Hashes by a key that is known: whoever chooses names can choose some that fall together.
    pub(crate) fn known() -> Keyed {
        Keyed {
            begun: DefaultHasher::new(),
        }
    }

    /// Hashes by a key of 128 bits that is drawn at random and shown to nobody: whoever chooses names cannot tell which of
    /// them fall together.
    pub(crate) fn drawn<R: RandomSource>(rt: &R) -> Result<Keyed, AllocError> {
        match RandomState::new(rt) {
            Ok(state) => Ok(Keyed {
                begun: state.build_hasher(),
            }),
            Err(_) => Err(AllocError),
        }
    }
}

impl BuildHasher for Keyed {
    type Hasher = DefaultHasher;

    ghost build_hasher = { λ keyed. keyed.begun };

    fn build_hasher(&self) -> DefaultHasher {
        self.begun
    }
}
