//! The test of a list of places: each station is to be named just once.
#![tactic(auto)]

ghost use Rattle.std.specs.Prelude.{◌≡◌, ◌≤◌, length, None};
ghost use Rattle.places.specs.Places.{Once, first_wrong, right};

/// Whether the place of this copy, counted from 1, is a station, and that of no copy before it.
fn is_right(places: &[u32], copy: usize) -> bool
    requires { (1 ≤ copy) × (copy ≤ length places.now) }
    ensures { result ≡ right places.now copy }
{
    let place = places[copy - 1];
    (1..=places.len()).contains(&(place as usize)) && !places[..copy - 1].contains(&place)
}

/// The first copy, counted from 1, whose place is no station or that of an earlier copy, where there are as many stations
/// as places. `None` where each station is named just once.
pub fn first_wrong(places: &[u32]) -> Option<usize>
    ensures wrong { result ≡ first_wrong places.now }
    ensures once { result ≡ None → Once places.now }
{
    (1..places.len() + 1).find(|&copy| !is_right(places, copy))
}
