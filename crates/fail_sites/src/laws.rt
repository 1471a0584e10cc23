//! The laws.
ghost use Rattle.fail_sites.specs.Offers.{LastLaw, OfferLaw, RepeatLaw};
ghost use Rattle.fail_sites.specs.SiteLaws.{AskLaw, SiteLaw};
ghost use Rattle.fail_sites.specs.StartLaw.{StartLaw};

/// A search that stands at a site meets what the graph says, and stands at the next site then.
pub fn sites_lead_on()
    ensures { SiteLaw }
{}

/// What has failed at a site and a place fails there again, at the same cost.
pub fn sites_fail_again()
    ensures { AskLaw }
{}

/// A greedy repeat of one item hands on places, from the last to the first, and counts a Step at
/// each, and a unit while another is left.
pub fn repeats_hand_on()
    ensures first { RepeatLaw }
    ensures further { OfferLaw }
    ensures last { LastLaw }
{}

/// The search of the pattern begins at the first site.
pub fn first_site_is_the_pattern()
    ensures { StartLaw }
{}
