//! The names of a lamp's states and contents.
ghost use Rattle.diagrams.specs.Names.{light_name, press_name};

use lamp_module::{Light, Press};
use st_diagram::DiagramNames;
use std::alloc::{AllocError, Global};

/// The names that a lamp's diagram has.
#[derive(Clone, Copy)]
pub struct LampNames;

impl DiagramNames<Light, Press> for LampNames {
    ghost state_is = { λ names light. light_name light };

    ghost content_is = { λ names press. press_name press };

    fn state(&self, alloc: Global, state: Light) -> Result<String, AllocError> {
        match state {
            Light::Off => String::from_str(alloc, "Off"),
            Light::On => String::from_str(alloc, "On"),
        }
    }

    fn content(&self, alloc: Global, content: &Press) -> Result<String, AllocError> {
        match content {
            Press::Switch => String::from_str(alloc, "switch"),
            Press::Renew(_) => String::from_str(alloc, "renew"),
        }
    }
}
