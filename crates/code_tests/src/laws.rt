// Each law of simulations at concrete types.

ghost use Rattle.std.specs.Prelude.{◌≡◌};

use simulation::{
    Relates, follows_itself, follows_on, follows_slower, plus_follows, plus_tracks,
    simulation_follows, star_follows, star_tracks,
};

struct Equal;

impl Relates<u8, u8> for Equal {
    ghost related = { λ s t. s ≡ t };
}

#[test]
fn each_law_is_called_at_a_relation_between_numbers() {
    follows_itself::<bool, u8>();
    follows_on::<bool, u8, u8, u8>();
    follows_slower::<bool, u8, u8>();
    simulation_follows::<bool, u8, u8, Equal>();
    plus_follows::<bool, u8, u8, Equal>();
    star_follows::<bool, u8, u8, Equal>();
    plus_tracks::<bool, u8, u8, Equal>();
    star_tracks::<bool, u8, u8, Equal>();
}
