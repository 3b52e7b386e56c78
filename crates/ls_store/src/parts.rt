// The parts of a session.
use ls_domain::Domain;
use ls_expert::Inquiry;
use ls_pupils::PupilCases;
use ls_weight::Settings;

/// The parts of a session: the domain, the interview on its items, and their settings and pupils.
#[derive(Drop)]
pub struct Parts {
    pub domain: Domain,
    pub inquiry: Inquiry,
    pub settings: Settings,
    pub pupils: PupilCases,
}
