ghost use Rattle.std.specs.Prelude.{◌≡◌, ◌<◌, ◌≤◌, [], ◌∷◌, length, map, vec_len, vec_capacity, IfOk, IfSome, IfNone, IsNone, ◌↔◌};
ghost use Rattle.std.specs.List.Sorted.{IsNonDecreasingBy, IsPermutation};
ghost use Rattle.reset_callbacks.specs.Hook.{AreDistinct, AreRising, IsBelow, Lacks};
ghost use Rattle.reset_callbacks.specs.ShelfState.{held, taken, finished, returned, renewed};

use crate::reset_hook::ResetHook;
use std::alloc::{AllocError, Global};
use std::marker::Model;

/// The hooks of the program: those that may be taken, and those that have been.
#[derive(Drop)]
pub struct Shelf<H: ResetHook> {
    // By falling words, so that the hook of the least word is the last.
    fresh: Vec<H>,
    spent: Vec<H>,
    // How many were taken and are neither finished nor put back. Each has its room in both lists.
    out: usize,
}

impl<H: ResetHook> Model for Shelf<H> {
    ghost use Rattle.std.specs.Prelude.{◌+◌, ◌≤◌, ◌++◌, map, reverse, vec_len, vec_capacity};
    ghost use Rattle.reset_callbacks.specs.Hook.{AreDistinct, AreRising};
    ghost use Rattle.reset_callbacks.specs.ShelfState.{ShelfState};

    ghost Value = { ShelfState };

    ghost view = { λ s. record {
      fresh = reverse (map H.hook_meaning s.fresh.items);
      spent = map H.hook_meaning s.spent.items;
      out = s.out;
    } };

    ghost invariant = { λ s. record {
      fresh_room : vec_len s.fresh + vec_len s.spent + s.out ≤ vec_capacity s.fresh;
      spent_room : vec_len s.fresh + vec_len s.spent + s.out ≤ vec_capacity s.spent;
      rising : AreRising (reverse (map H.hook_meaning s.fresh.items));
      words_differ : AreDistinct (reverse (map H.hook_meaning s.fresh.items) ++ map H.hook_meaning s.spent.items);
    } };
}

impl<H: ResetHook> Shelf<H> {
    /// A shelf of fresh hooks.
    pub fn new(alloc: Global, mut fresh: Vec<H>) -> Result<Shelf<H>, AllocError>
        requires { AreRising (map H.hook_meaning fresh.items) }
        ensures fresh { IfOk result (λ shelf. shelf.fresh ≡ map H.hook_meaning fresh.items) }
        ensures spent { IfOk result (λ shelf. shelf.spent ≡ []) }
        ensures out { IfOk result (λ shelf. shelf.out ≡ 0) }
        ensures words_differ { IfOk result (λ shelf. AreDistinct (held shelf)) }
    {
        let spent = Vec::with_capacity(alloc, fresh.len())?;
        fresh.reverse();
        Ok(Shelf {
            fresh,
            spent,
            out: 0,
        })
    }

    /// Takes the fresh hook of the least word.
    pub fn take(&mut self) -> Option<H>
        ensures none { IsNone result ↔ (self.old.fresh ≡ []) }
        ensures first { IfSome result (λ hook. self.old.fresh ≡ H.hook_meaning hook ∷ self.new.fresh) }
        ensures after { IfSome result (λ _. self.new ≡ taken self.old) }
        ensures below { IfSome result (λ hook. IsBelow (H.hook_meaning hook).word self.new.fresh) }
        ensures other_word { IfSome result (λ hook. Lacks (held self.new) (H.hook_meaning hook).word) }
        ensures unchanged { IfNone result (self.new ≡ self.old) }
        ensures words_differ { AreDistinct (held self.new) }
    {
        let hook = self.fresh.pop()?;
        self.out += 1;
        Some(hook)
    }

    /// Hands in a hook that was called: it is spent.
    pub fn finish(&mut self, hook: H)
        requires out { 0 < self.old.out }
        requires other_word { Lacks (held self.old) (H.hook_meaning hook).word }
        ensures after { self.new ≡ finished (H.hook_meaning hook) self.old }
        ensures words_differ { AreDistinct (held self.new) }
    {
        self.spent.push_reserved(hook);
        self.out -= 1;
    }

    /// Hands back a hook that was not called: it is fresh, and the next to be taken.
    pub fn put_back(&mut self, hook: H)
        requires out { 0 < self.old.out }
        requires other_word { Lacks (held self.old) (H.hook_meaning hook).word }
        requires below { IsBelow (H.hook_meaning hook).word self.old.fresh }
        ensures after { self.new ≡ returned (H.hook_meaning hook) self.old }
        ensures words_differ { AreDistinct (held self.new) }
    {
        self.fresh.push_reserved(hook);
        self.out -= 1;
    }

    /// Makes all spent hooks fresh, with their counts of runs as they are.
    pub fn renew(&mut self)
        ensures after { self.new ≡ renewed self.old }
        ensures words_differ { AreDistinct (held self.new) }
    {
        self.fresh.append(&mut self.spent).unwrap();
        sort_by_word(&mut self.fresh);
        self.fresh.reverse();
    }

    /// How many hooks are fresh.
    pub fn fresh(&self) -> usize
        ensures count { result ≡ length self.now.fresh }
        ensures words_differ { AreDistinct (held self.now) }
    {
        self.fresh.len()
    }

    /// How many hooks are spent.
    pub fn spent(&self) -> usize
        ensures count { result ≡ length self.now.spent }
        ensures words_differ { AreDistinct (held self.now) }
    {
        self.spent.len()
    }
}

// Sorts hooks by their words.
fn sort_by_word<H: ResetHook>(hooks: &mut Vec<H>)
    ensures moved { IsPermutation hooks.old.items hooks.new.items }
    ensures rising { IsNonDecreasingBy (λ hook. (H.hook_meaning hook).word) hooks.new.items }
    ensures len { vec_len hooks.new ≡ vec_len hooks.old }
    ensures capacity { vec_capacity hooks.new ≡ vec_capacity hooks.old }
{
    hooks.sort_unstable_by_key(|hook| hook.word());
}
