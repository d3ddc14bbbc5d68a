// Document 01, "Methods and their lines": a kind as what it adds to or takes from a gas.
#![tactic(auto)]

ghost use Rattle.std.specs.Prelude.{◌≡◌, ◌≤◌};
ghost use Rattle.meaning.specs.Methods.{whole};
ghost use Rattle.line_kind.specs.Ranges.{KindFits, carbon_factor};
ghost use Rattle.line_term.specs.Terms.{gas_term, co2_term, carbon_term, term_of};

use line_kind::WHOLE;
use meaning::Kind;

// A kind as one product: a line of quantity q adds q * content * factor to the sum of its gas, or takes it from there.
#[derive(Clone, Copy)]
pub struct Term {
    pub gas: usize,
    pub takes: bool,
    pub content: u64,
    pub factor: u64,
}

// Tonnes of CO2 that a thousand tonnes of carbon make.
const CO2_OF_CARBON: u64 = 3664;

// The gases, by their places in the report.
const CARBON_DIOXIDE: usize = 0;

const METHANE: usize = 1;

const NITROUS_OXIDE: usize = 2;

// A gas that is added: a content times a factor.
fn gas_term(gas: usize, content: u64, factor: u64) -> Term
    ensures { result ≡ gas_term gas content factor }
{
    Term {
        gas,
        takes: false,
        content,
        factor,
    }
}

// CO2 of a content, of the share of it that counts, and of the factor of CO2.
fn co2_term(takes: bool, content: u64, share: u64, factor: u64) -> Term
    requires { (share ≤ whole) × (factor ≤ carbon_factor) }
    ensures { result ≡ co2_term takes content share factor }
{
    Term {
        gas: CARBON_DIOXIDE,
        takes,
        content,
        factor: share * factor,
    }
}

// Carbon becomes CO2 here, and nowhere else.
fn carbon_term(takes: bool, carbon: u64, share: u64) -> Term
    requires { share ≤ whole }
    ensures { result ≡ carbon_term takes carbon share }
{
    co2_term(takes, carbon, share, CO2_OF_CARBON)
}

// What a line of a kind adds to or takes from the sum of its gas, for each unit of its quantity.
pub fn term_of(kind: Kind) -> Term
    requires { KindFits kind }
    ensures { result ≡ term_of kind }
{
    match kind {
        Kind::Fuel { carbon, oxidised } => carbon_term(false, carbon, oxidised),
        Kind::FlareCarbon { carbon, unburned } => carbon_term(false, carbon, WHOLE - unburned),
        Kind::FlareMethane { methane, unburned } => gas_term(METHANE, methane, unburned),
        Kind::MetalIn { carbon } => carbon_term(false, carbon, WHOLE),
        Kind::MetalOut { carbon } => carbon_term(true, carbon, WHOLE),
        Kind::OpeningStock { carbon } => carbon_term(false, carbon, WHOLE),
        Kind::ClosingStock { carbon } => carbon_term(true, carbon, WHOLE),
        Kind::Feed { carbon } => carbon_term(false, carbon, WHOLE),
        Kind::Product { carbon } => carbon_term(true, carbon, WHOLE),
        Kind::ByProduct { carbon } => carbon_term(true, carbon, WHOLE),
        Kind::CarbonateCharged {
            share,
            factor,
            calcined,
        } => co2_term(false, share, calcined, factor),
        Kind::KilnDust {
            share,
            factor,
            calcined,
        } => co2_term(true, share, WHOLE - calcined, factor),
        Kind::OtherCarbon { carbon } => carbon_term(false, carbon, WHOLE),
        Kind::NitricAcid { factor } => gas_term(NITROUS_OXIDE, factor, 1),
    }
}
