// Two closures that say which nodes act on each other, and by what force.
ghost use Rattle.std.specs.Prelude.{◌≡◌, ◌+◌, ◌-◌, ◌<◌, ◌^◌};
ghost use Rattle.std.specs.Fn.{FnReturnsAtPair};
ghost use Rattle.pair_law.specs.Laws.{AreApart, AreInOrder, IsLaw, MayAct};

use fixed_point::V3;
use node_moments::Moments;

/// A law of pairs: whether two nodes act on each other as wholes, and the force on the one of smaller corner. Its two
/// closures are asked by calls that it counts. Whoever makes them shows what is asked of them, and each call asks for
/// that again.
#[derive(Drop)]
pub struct Law<A, F> {
    accept: A,
    force: F,
    asked_accept: u64,
    asked_force: u64,
}

impl<A: Fn(&Moments, &Moments) -> bool, F: Fn(&Moments, &Moments) -> V3> Law<A, F> {
    /// Keeps two closures, which weren't asked yet.
    pub fn new(accept: A, force: F) -> Law<A, F>
        requires { IsLaw A.Fn F.Fn accept force }
        ensures accept { result.accept ≡ accept }
        ensures force { result.force ≡ force }
        ensures asked_accept { result.asked_accept ≡ 0 }
        ensures asked_force { result.asked_force ≡ 0 }
    {
        Law {
            accept,
            force,
            asked_accept: 0,
            asked_force: 0,
        }
    }

    /// Whether two nodes that are apart act on each other as wholes, though one is no leaf.
    pub fn accept(&mut self, a: &Moments, b: &Moments) -> bool
        requires law { IsLaw A.Fn F.Fn self.old.accept self.old.force }
        requires apart { AreApart a.now b.now }
        requires room { self.old.asked_accept < 2 ^ 64 - 1 }
        ensures answer { FnReturnsAtPair A.Fn self.old.accept a.now b.now result }
        ensures counted { self.new.asked_accept ≡ self.old.asked_accept + 1 }
        ensures asked_force { self.new.asked_force ≡ self.old.asked_force }
        ensures same_accept { self.new.accept ≡ self.old.accept }
        ensures same_force { self.new.force ≡ self.old.force }
    {
        self.asked_accept += 1;
        (self.accept)(a, b)
    }

    /// The force on the first of two nodes that act on each other as wholes; that on the second is its negative.
    pub fn force(&mut self, a: &Moments, b: &Moments) -> V3
        requires law { IsLaw A.Fn F.Fn self.old.accept self.old.force }
        requires order { AreInOrder a.now b.now }
        requires wholes { MayAct A.Fn self.old.accept a.now b.now }
        requires room { self.old.asked_force < 2 ^ 64 - 1 }
        ensures answer { FnReturnsAtPair F.Fn self.old.force a.now b.now result }
        ensures counted { self.new.asked_force ≡ self.old.asked_force + 1 }
        ensures asked_accept { self.new.asked_accept ≡ self.old.asked_accept }
        ensures same_accept { self.new.accept ≡ self.old.accept }
        ensures same_force { self.new.force ≡ self.old.force }
    {
        self.asked_force += 1;
        (self.force)(a, b)
    }

    /// How often the first closure was asked.
    pub fn asked_accept(&self) -> u64
        ensures { result ≡ self.now.asked_accept }
    {
        self.asked_accept
    }

    /// How often the second closure was asked.
    pub fn asked_force(&self) -> u64
        ensures { result ≡ self.now.asked_force }
    {
        self.asked_force
    }
}
