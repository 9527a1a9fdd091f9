//! What collectors mean and what they must show; copying, sliding and the two layers as changes of tables.
//! The definitions are in `specs/`. Each function states laws in its contract, so that callers can cite them.
#![tactic(auto)]

ghost use Rattle.std.specs.Prelude.{◌≡◌, true};
ghost use Rattle.collectors.specs.Layers.{PiledShows, PiledWithin};
ghost use Rattle.collectors.specs.LayerLaws.{LayeredShows, ShortenLayered, ResetLayered};
ghost use Rattle.collectors.specs.Orders.{PlacedShows};

/// Copying and sliding, under any pile of layers, show what a collector must, with the number of reached cells of the tables
/// that the layers leave as their count.
pub fn collectors_show() -> bool
    ensures shows { PiledShows }
    ensures within { PiledWithin }
    ensures answer { result ≡ true }
{
    true // The law of piles.
}

/// What other collectors and layers may rest on: placing the reached cells in any order that keeps structures together shows
/// what a collector must, and a layer that keeps what is spelled may stand over any collector, as shortening and reset do.
pub fn placing_and_layers_show() -> bool
    ensures placed { PlacedShows }
    ensures layered { LayeredShows }
    ensures shorten { ShortenLayered }
    ensures reset { ResetLayered }
    ensures answer { result ≡ true }
{
    true // The laws of placing and of layers.
}
