// Histories of a station, computed from the definitions: specs/Witness.antt; the summary along one,
// specs/Panel.antt; the causes of refusals, specs/Causes.antt; two cards, specs/Cards.antt. There is no
// code here.
#![tactic(auto)]
