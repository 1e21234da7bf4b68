// Whose turn it is.
use rand_pcg::Pcg32;
use run_model::Actor;

/// Whose turn it is: the first that has an offer from the one behind the last that acted, round the list; or the one that the
/// generator's next word names among those that have an offer.
#[derive(Drop)]
pub enum Turn {
    Round(Option<Actor>),
    Drawn(Pcg32),
}
