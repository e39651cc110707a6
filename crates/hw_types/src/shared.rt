//! A list that several owners can have together.

ghost use Rattle.std.specs.Prelude.{◌≡◌, ◌++◌, ◌∷◌, [], length, OnOk, OnErr, IfOk};

use crate::items::OutOfMemory;
use crate::unit::Obs;
use std::alloc::Global;
use std::marker::Model;
use std::sync::Arc;

/// Whose the items are. Those that several owners have never change.
#[derive(Drop)]
enum Held<T> {
    Alone(Vec<T>),
    Together(Arc<Vec<T>, Global>),
}

/// A list of items, which contracts see as a list. Once it is shared, a copy is one owner more.
#[derive(Drop)]
pub struct Shared<T> {
    held: Held<T>,
}

impl<T> Model for Shared<T> {
    ghost use Rattle.std.specs.Prelude.{List};
    ghost use Rattle.hw_types.specs.Shared.{items_of};

    ghost Value = { List T };

    ghost view = { λ list. items_of list.held };
}

impl<T> Shared<T> {
    /// An empty list, which takes its memory from `alloc` as it grows.
    pub fn new(alloc: Global) -> Shared<T>
        ensures { result ≡ [] }
    {
        Shared {
            held: Held::Alone(Vec::new(alloc)),
        }
    }

    /// The items of a vector, which takes no memory.
    pub fn from_vec(items: Vec<T>) -> Shared<T>
        ensures { result ≡ items.items }
    {
        Shared {
            held: Held::Alone(items),
        }
    }

    /// How many items the list has.
    pub fn len(&self) -> usize
        ensures { result ≡ length self.now }
    {
        self.items().len()
    }

    /// The items in order.
    pub fn as_slice(&self) -> &[T]
        ensures { result.now ≡ self.now }
    {
        self.items().as_slice()
    }

    /// The vector that has the items, whoever owns it.
    fn items(&self) -> &Vec<T>
        ensures { result.now.items ≡ self.now }
    {
        match &self.held {
            Held::Alone(items) => items,
            Held::Together(items) => items.as_ref(),
        }
    }
}

impl<T: Drop> Shared<T> {
    /// The same list, whose copies take no memory from now on.
    pub fn shared(self) -> Result<Shared<T>, OutOfMemory>
        ensures { IfOk result (λ list. list ≡ self) }
    {
        match self.held {
            Held::Alone(items) => {
                let alloc = *items.allocator();
                Ok(Shared {
                    held: Held::Together(Arc::new(alloc, items)?),
                })
            }
            Held::Together(items) => Ok(Shared {
                held: Held::Together(items),
            }),
        }
    }
}

impl<T: Copy> Shared<T> {
    /// Puts one item last, into a list of its own. Where there is no memory, the list stays as it was.
    pub fn push(&mut self, item: T) -> Result<(), OutOfMemory>
        ensures ok { OnOk result (self.new ≡ self.old ++ item ∷ []) }
        ensures err { OnErr result (self.new ≡ self.old) }
    {
        match &mut self.held {
            Held::Alone(items) => items.push(item)?,
            Held::Together(_) => {
                let mut items = self.to_vec()?;
                items.push(item)?;
                self.held = Held::Alone(items);
            }
        }
        Ok(())
    }

    /// A vector with the same items, of its own.
    pub fn to_vec(&self) -> Result<Vec<T>, OutOfMemory>
        ensures { IfOk result (λ items. items.items ≡ self.now) }
    {
        let items = self.items();
        Ok(Vec::from_slice(*items.allocator(), items.as_slice())?)
    }

    /// A list with the same items. It takes no memory where the list is shared.
    pub fn copy(&self) -> Result<Shared<T>, OutOfMemory>
        ensures { IfOk result (λ list. list ≡ self.now) }
    {
        let held = match &self.held {
            Held::Alone(_) => Held::Alone(self.to_vec()?),
            Held::Together(items) => Held::Together(items.clone()?),
        };
        Ok(Shared { held })
    }
}

/// A panorama: one observation for each validator, in their order.
pub type ObsList = Shared<Obs>;
