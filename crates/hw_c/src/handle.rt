//! The handle that a caller in another language holds: a place for a node.

ghost use Rattle.std.specs.Prelude.{◌≡◌, Some, None, Option, IfErr, option_map};
ghost use Rattle.hw_c.specs.declared.codes.Fault.TheVariants as faults;
ghost use Rattle.hw_c.specs.Held.{Held, held_coded, held_owns, value_in, boxed_in};

use crate::codes::Fault;
use crate::content::Content;
use hw_core::Core;
use std::alloc::Global;
use std::marker::Model;
use std::mem::replace;
use std::ptr::null_mut;

/// A place for a node: a pointer, which is null while there is none.
#[repr(C)]
#[derive(Drop)]
pub struct Handle {
    at: *mut u8,
    alloc: Global,
    pub ghost held: { Option Held } by { held_coded },
}

impl Model for Handle {
    ghost also_owns = { λ h. held_owns h.alloc h.at h.held };
}

impl Handle {
    /// A place without a node.
    fn empty(alloc: Global) -> Handle
        ensures { result.held ≡ None }
    {
        Handle {
            at: null_mut(),
            alloc,
        }
    }

    /// A place with this node.
    fn full(content: Content<Core, Global>) -> Handle
        ensures { result.held ≡ Some content.value }
    {
        let Content { at, alloc } = content;
        Handle {
            at: at as *mut u8,
            alloc,
        }
    }

    /// The node of the place as its pointer and allocator, where there is one.
    fn content(self) -> Option<Content<Core, Global>>
        ensures { value_in result ≡ self.held }
    {
        let Handle { at, alloc } = self;
        if at == null_mut() {
            return None;
        }
        Some(Content {
            at: at as *mut Core,
            alloc,
        })
    }

    /// Puts a node into the empty place.
    pub(crate) fn fill(&mut self, core: Box<Core>)
        requires { self.old.held ≡ None }
        ensures { self.new.held ≡ Some core.value }
    {
        *self = Handle::full(Content::of(core));
    }

    /// Takes the node out. Answers `Empty` where there is none.
    pub(crate) fn take(&mut self, alloc: Global) -> Result<Box<Core>, Fault>
        ensures taken { boxed_in result ≡ self.old.held }
        ensures empty { self.new.held ≡ None }
        ensures fault { IfErr result (λ fault. fault ≡ faults.Empty) }
    {
        let none = Handle::empty(alloc);
        match replace(self, none).content() {
            Some(content) => Ok(content.boxed()),
            None => Err(Fault::Empty),
        }
    }

    /// Puts a node back after a call of it, and answers what that call answered.
    pub(crate) fn fill_after<T>(&mut self, outcome: T, core: Box<Core>) -> T
        requires { self.old.held ≡ None }
        ensures filled { self.new.held ≡ Some core.value }
        ensures outcome { result ≡ outcome }
    {
        self.fill(core);
        outcome
    }
}

// The box that it points to may go to another thread.
unsafe impl Send for Handle {}
