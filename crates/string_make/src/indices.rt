//! The numbers of strings by their effects.

use crate::effects::Effect;
use crate::strings::number_of;
use std::alloc::{AllocError, Global};

/// No string.
const NONE: u32 = u32::MAX;

/// How many slots there are at first.
const SLOTS: usize = 1024;

/// Strings by the sums of their effects: each slot has the number of its last string, and each string that of the one before it in
/// its slot.
#[derive(Drop)]
pub(crate) struct Index {
    effects: Vec<Effect>,
    /// For each slot its last string.
    lasts: Vec<u32>,
    /// For each string the one before it.
    befores: Vec<u32>,
}

impl Index {
    /// An index of no strings.
    pub(crate) fn new(alloc: Global) -> Result<Index, AllocError> {
        Ok(Index {
            effects: Vec::new(alloc),
            lasts: vec![in alloc; NONE; SLOTS]?,
            befores: Vec::new(alloc),
        })
    }

    /// The effect of a string.
    #[inline]
    pub(crate) fn effect(&self, string: u32) -> Effect {
        self.effects
            .get(string as usize)
            .copied()
            .unwrap_or(Effect::NONE)
    }

    /// A string with this effect that stays in its box.
    pub(crate) fn find(&self, effect: &Effect) -> Option<u32> {
        let mut string = self.last_in(self.slot(effect));
        for _ in 0..self.effects.len() {
            let other = self.effects.get(string as usize)?;
            if effect.is_that_of(other) {
                return Some(string);
            }
            string = self.before(string);
        }
        None
    }

    /// Adds the effect of the next string.
    pub(crate) fn push(&mut self, alloc: Global, effect: Effect) -> Result<(), AllocError> {
        let count = self.effects.len();
        if count >= self.lasts.len() {
            self.grow(alloc)?;
        }
        let string = number_of(count)?;
        self.effects.push(effect)?;
        self.befores.push(NONE)?;
        self.link(string);
        Ok(())
    }

    /// Twice as many slots.
    fn grow(&mut self, alloc: Global) -> Result<(), AllocError> {
        let slots = self.lasts.len().saturating_mul(2);
        self.lasts = vec![in alloc; NONE; slots]?;
        for string in 0..self.effects.len() {
            self.link(number_of(string)?);
        }
        Ok(())
    }

    /// Puts a string into its slot.
    #[inline]
    fn link(&mut self, string: u32) {
        let effect = self.effect(string);
        let slot = self.slot(&effect);
        let last = self.last_in(slot);
        if let Some(before) = self.befores.get_mut(string as usize) {
            *before = last;
        }
        if let Some(last) = self.lasts.get_mut(slot) {
            *last = string;
        }
    }

    /// The last string of a slot.
    #[inline]
    fn last_in(&self, slot: usize) -> u32 {
        self.lasts.get(slot).copied().unwrap_or(NONE)
    }

    /// The string before another one in its slot.
    #[inline]
    fn before(&self, string: u32) -> u32 {
        self.befores.get(string as usize).copied().unwrap_or(NONE)
    }

    /// The slot of an effect. How many slots there are is a power of two.
    #[inline]
    fn slot(&self, effect: &Effect) -> usize {
        effect.sum as usize & self.lasts.len().wrapping_sub(1)
    }
}
