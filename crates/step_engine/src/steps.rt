// What a step is made of.

use crate::pause::Pause;

/// A step of a part of the bodies: its bin, the tick at which it begins, and their ascending places.
#[derive(Clone, Copy)]
pub(crate) struct Step<'a> {
    pub bin: u8,
    pub tick: u64,
    pub part: &'a [u32],
}

/// A step whose fast bodies are known, by their ascending places.
#[derive(Clone, Copy)]
pub(crate) struct Split<'a> {
    pub bin: u8,
    pub tick: u64,
    pub part: &'a [u32],
    pub fast: &'a [u32],
}

/// A kick: its bin, its tick, how far it counts, and the ascending places of all its bodies and of the fast ones.
#[derive(Clone, Copy)]
pub(crate) struct Kick<'a> {
    pub bin: u8,
    pub tick: u64,
    pub h: u64,
    pub whole: &'a [u32],
    pub fast: &'a [u32],
}

/// An unfinished evolve: where its step rests, its bin, and the ascending places of its fast bodies.
#[derive(Clone, Copy)]
pub(crate) struct Unfinished<'a> {
    pub pause: &'a Pause<'a>,
    pub bin: u8,
    pub fast: &'a [u32],
}
