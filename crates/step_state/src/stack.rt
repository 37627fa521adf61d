ghost use Rattle.std.specs.Prelude.{◌≡◌, ◌∷◌, ◌++◌, ◌<◌, [], OnErr, OnOk, drop, length, reverse, take, MatchOption, Option, slice_get, Some, ◌≤◌, ◌-◌};
ghost use Rattle.std.specs.Borrow.{sem};

use cfix_base::NoMemory;
use std::alloc::Global;
use std::marker::Model;

/// A stack, which contracts see as a list whose top comes first.
#[derive(Drop)]
pub struct Stack<T> {
    items: Vec<T>,
}

impl<T> Model for Stack<T> {
    ghost use Rattle.std.specs.Prelude.{List, reverse};

    ghost Value = { List T };

    ghost view = { λ s. reverse s.items.items };
}

impl<T: Drop> Stack<T> {
    ghost use Rattle.step_state.specs.StackLends.{LendsSecond, LendsTop};

    /// The empty stack. It takes no memory, and keeps the allocator for later.
    pub fn new(alloc: Global) -> Stack<T>
        ensures { result ≡ [] }
    {
        Stack {
            items: Vec::new(alloc),
        }
    }

    /// Puts `item` on top. After an error the stack is as before.
    pub fn push(&mut self, item: T) -> Result<(), NoMemory>
        ensures pushed { OnOk result (self.new ≡ item ∷ self.old) }
        ensures unchanged { OnErr result (self.new ≡ self.old) }
    {
        self.items.push(item)?;
        Ok(())
    }

    /// Takes the top, if there is one.
    pub fn pop(&mut self) -> Option<T>
        ensures { MatchOption result (self.old ≡ [] × self.new ≡ []) (λ x. self.old ≡ x ∷ self.new) }
    {
        self.items.pop()
    }

    /// The number of items.
    pub fn len(&self) -> usize
        ensures { result ≡ length self.now }
    {
        self.items.len()
    }

    /// The top, if there is one.
    pub fn top(&self) -> Option<&T>
        ensures { MatchOption result (self.now ≡ []) (λ x. slice_get self.now 0 ≡ Some x.now) }
    {
        self.items.last()
    }

    /// The top of a stack that is not empty.
    #[tactic(auto, using(crate::proofs::Tops::get_last))]
    pub fn first(&self) -> &T
        requires { 0 < length self.now }
        ensures { slice_get self.now 0 ≡ Some result.now }
    {
        &self.items[self.items.len() - 1]
    }

    /// The item that lies so many below the top, if there is one.
    pub fn from_top(&self, place: usize) -> Option<&T>
        ensures { MatchOption result (slice_get self.now place ≡ Option.None) (λ x. slice_get self.now place ≡ Some x.now) }
    {
        let len = self.items.len();
        if place < len {
            Some(&self.items[len - 1 - place])
        } else {
            None
        }
    }

    /// The item that lies so many above the bottom.
    pub fn from_bottom(&self, place: usize) -> &T
        requires { place < length self.now }
        ensures { slice_get (reverse self.now) place ≡ Some result.now }
    {
        &self.items[place]
    }

    /// The top, to be changed.
    pub fn top_mut(&mut self) -> &mut T
        requires { 0 < length self.old }
        ensures* lends { sem 𝓛 (LendsTop T.row self.entry result) }
        ensures value { slice_get self.old 0 ≡ Some result.now }
    {
        let last = self.items.len() - 1;
        &mut self.items[last]
    }

    /// The item below the top, to be changed.
    pub fn second_mut(&mut self) -> &mut T
        requires { 1 < length self.old }
        ensures* lends { sem 𝓛 (LendsSecond T.row self.entry result) }
        ensures value { slice_get self.old 1 ≡ Some result.now }
    {
        let second = self.items.len() - 2;
        &mut self.items[second]
    }
}

impl<T: Drop> Stack<T> {
    /// Takes so many items off the top, or all where there are fewer. It takes no memory.
    #[tactic(auto, using(crate::proofs::Tops::reverse_dropped))]
    pub fn remove(&mut self, count: usize)
        ensures { self.new ≡ drop count self.old }
    {
        let kept = self.items.len().saturating_sub(count);
        self.items.truncate(kept);
    }

    /// Takes all items off. It takes no memory.
    pub fn clear(&mut self)
        ensures { self.new ≡ [] }
    {
        self.items.clear();
    }

    /// So many items from the top, or all where there are fewer, the lowest first.
    #[tactic(auto, using(crate::proofs::Tops::last_taken))]
    pub fn last(&self, count: usize) -> &[T]
        ensures { result.now ≡ reverse (take count self.now) }
    {
        let first = self.items.len().saturating_sub(count);
        &self.items.as_slice()[first..]
    }
}

impl<T: Copy + Drop> Stack<T> {
    /// Puts `items` on top, the first of them topmost. After an error the stack is as before.
    #[tactic(auto, using(crate::proofs::Tops::drop_before, crate::proofs::Tops::drop_pushed))]
    pub fn push_all(&mut self, items: &[T]) -> Result<(), NoMemory>
        ensures pushed { OnOk result (self.new ≡ items.now ++ self.old) }
        ensures unchanged { OnErr result (self.new ≡ self.old) }
    {
        let mut left = items.len();
        while left > 0 {
            left -= 1;
            if self.push(items[left]).is_err() {
                self.remove(items.len() - 1 - left);
                return Err(NoMemory);
            }
        }
        Ok(())
    }

    /// Puts `items`, the first of them topmost, and below them `last` in the place of the top.
    /// After an error the stack is as before.
    #[tactic(auto, using(crate::proofs::Tops::expanded))]
    pub fn expand(&mut self, items: &[T], last: T) -> Result<(), NoMemory>
        requires { 0 < length self.old }
        ensures expanded { OnOk result (self.new ≡ items.now ++ last ∷ drop 1 self.old) }
        ensures unchanged { OnErr result (self.new ≡ self.old) }
    {
        self.push_all(items)?;
        let place = self.items.len() - 1 - items.len();
        self.items[place] = last;
        Ok(())
    }
}
