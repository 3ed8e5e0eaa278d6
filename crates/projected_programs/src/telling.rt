//! What endpoint programs have names, texts and numbers for.

ghost use Rattle.std.specs.Prelude.{ℕ, Option, List};
ghost use Rattle.chor_base.specs.declared.event.Event.{Event};
ghost use Rattle.chor_base.specs.Meaning.{Hosts};
ghost use Rattle.endpoint_code.specs.declared.endpoints.Endpoints.{Endpoints};
ghost use Rattle.endpoint_code.specs.Faults.{IsFaultless};
ghost use Rattle.endpoint_code.specs.Network.{NetworkState};
ghost use Rattle.endpoint_code.specs.NetworkRuns.{IsNetworkRun};
ghost use Rattle.projected_programs.specs.Sizes.{AreLiteralsSized, AreMeaningsSized};
ghost use Rattle.projected_programs.specs.Told.{AreNumbersSmall, IsShort, AreTold};

/// Programs without a fault, whose literal numbers have 64 bits, as the ranges of host functions do,
/// tell each event of their runs, as long as processes and sessions have numbers of 32 bits.
pub fn all_told()
    ensures { (e : Endpoints) (hosts : Hosts) (capacity : Option ℕ) (h : List Event) (last : NetworkState)
        → IsFaultless e → AreLiteralsSized e → AreMeaningsSized hosts → IsNetworkRun e hosts capacity h last → AreNumbersSmall last → AreTold e h }
{}

/// So they do where the events are few.
pub fn few_told()
    ensures { (e : Endpoints) (hosts : Hosts) (capacity : Option ℕ) (h : List Event) (last : NetworkState)
        → IsFaultless e → AreLiteralsSized e → AreMeaningsSized hosts → IsNetworkRun e hosts capacity h last → IsShort e h → AreTold e h }
{}
