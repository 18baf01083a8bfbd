// A galley with a first folio put into its bytes, and the galley that they then hold: see specs/.
#![tactic(auto)]
