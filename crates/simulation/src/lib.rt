//! Laws alone: systems that make steps, when one of them does what another does, and how a relation between their states
//! shows that.
//!
//! A system has a step, says of a state how it ended or that it runs, and what it has printed. What is defined here, in
//! `specs/`, speaks of any two such systems: of two programs, or of a program and the machine that runs it. Each function is
//! a law; its contract says it, and a call of it does nothing. The laws of simulation, and that of a greater number, ask of
//! the systems that a state which ended rests, and that a step takes back nothing of what was printed (`IsSystem`).
//!
//! The laws are those of forward simulation (N. Lynch and F. Vaandrager, "Forward and Backward Simulations", 1995), with
//! bounds on the numbers of steps. `Plus` and `Star` are the "plus" and the "star" diagram of the CompCert compiler's
//! `Smallstep.v`.
//!
//! 1. A system and its runs (`specs/System.antt`).
//! 2. Refinement: one system does what another does (`Follows`, `specs/Refinement.antt`).
//! 3. Simulation: the plus and the star diagram (`specs/Simulation.antt`). The laws themselves are in `src/lib.rt`.
#![tactic(auto)]

ghost use Rattle.simulation.specs.Laws.{FollowsItself, FollowsOn, FollowsSlower, SimulationFollows, PlusFollows, StarFollows, PlusTracks, StarTracks};

/// A relation between the states of one system, of the type `S`, and those of another, `T`.
pub trait Relates<S, T> {
    /// The two states stand for each other.
    ghost related: { S → T → Type 0 };
}

/// Each system follows itself, step by step.
pub fn follows_itself<E, S>()
    ensures { FollowsItself E S }
{}

/// Where a second system follows a first one and a third the second, the third follows the first,
/// and the factors on the numbers of steps multiply.
pub fn follows_on<E, S, T, U>()
    ensures { FollowsOn E S T U }
{}

/// A system that follows another, with at most a number of steps for each step of that other, does so
/// with any greater number.
pub fn follows_slower<E, S, T>()
    ensures { FollowsSlower E S T }
{}

/// Where related states agree, and from related states that run some steps of both systems lead to
/// related states again, the second system follows the first from related states on. Of those steps of
/// the first system only the last may print or end, and the second makes at most the factor for each.
pub fn simulation_follows<E, S, T, R: Relates<S, T>>()
    ensures { SimulationFollows E R.related }
{}

/// The same where each step of the first system is at least one step of the second, and at most the factor.
pub fn plus_follows<E, S, T, R: Relates<S, T>>()
    ensures { PlusFollows E R.related }
{}

/// The same where the first system may also make steps alone to related states, while a distance falls.
pub fn star_follows<E, S, T, R: Relates<S, T>>()
    ensures { StarFollows E R.related }
{}

/// Where each step of the first system is at least one step of the second and at most `c`, and the second
/// comes to a related state within `c` steps, it has a state related to each state of the first: after at
/// most `c` steps for each step of the first and `c` more, a number that never falls. The two states agree;
/// where the second ends the first ends alike, and it prints nothing that the first doesn't.
pub fn plus_tracks<E, S, T, R: Relates<S, T>>()
    ensures { PlusTracks E R.related }
{}

/// The same where the first system may also make steps alone to related states, while a distance falls.
pub fn star_tracks<E, S, T, R: Relates<S, T>>()
    ensures { StarTracks E R.related }
{}
