//! The demo's generator.
ghost use Rattle.std.specs.Prelude.{◌≡◌, ◌<◌, ◌++◌, OnOk, IfOk};
ghost use Rattle.calc_session.specs.Demo.{next, drawn, after, term_text, terms_text, demo_input as demo_input_of};
ghost use Rattle.std.specs.Fmt.{decimal};

use crate::faults::write_number;
use sdmp_laws::NoMemory;
use std::alloc::{AllocError, Global};

/// A generator of numbers.
#[derive(Clone, Copy, Debug)]
pub struct Generator {
    pub state: u64,
}

impl Generator {
    /// The next number below `k`.
    #[tactic(auto, unfolding(crate::specs::Demo::next, crate::specs::Demo::drawn))]
    pub fn draw(&mut self, k: u64) -> u64
        requires { 0 < k }
        ensures state { self.new.state ≡ next self.old.state }
        ensures number { result ≡ drawn k self.new.state }
        ensures below { result < k }
    {
        self.state = self
            .state
            .wrapping_mul(6364136223846793005)
            .wrapping_add(1442695040888963407);
        (self.state >> 33) % k
    }
}

/// The session of the demo.
pub fn demo_input(alloc: Global, seed: u64) -> Result<Vec<u8>, NoMemory>
    ensures { IfOk result (λ bytes. bytes.items ≡ demo_input_of seed) }
{
    let mut out = Vec::new(alloc);
    let mut draws = Generator { state: seed };
    out.extend_from_slice(b"vars x y z t\nring Z\na = ")?;
    write_terms(&mut out, &mut draws)?;
    out.extend_from_slice(b"\nb = ")?;
    write_terms(&mut out, &mut draws)?;
    let degree = 200 + draws.draw(800);
    out.extend_from_slice(b"\nc = x^5-7*y-3\nd = x^")?;
    write_number(&mut out, degree)?;
    out.extend_from_slice(b"-1\ne = x-1\nmul a b\nrem a c\ndiv d e\n")?;
    Ok(out)
}

/// The terms of one polynomial.
#[tactic(auto, using(crate::proofs::DemoLemmas::terms_more, crate::proofs::DemoLemmas::terms_none, crate::proofs::DemoLemmas::after_six))]
fn write_terms(out: &mut Vec<u8>, draws: &mut Generator) -> Result<(), AllocError>
    ensures text { OnOk result (out.new.items ≡ out.old.items ++ terms_text 1500 draws.old.state) }
    ensures state { OnOk result (draws.new.state ≡ after 9000 draws.old.state) }
{
    for _i in 0..1500u32 {
        write_term(out, draws)?;
    }
    Ok(())
}

#[tactic(auto, unfolding(crate::specs::Demo::term_text, crate::specs::Demo::after))]
fn write_term(out: &mut Vec<u8>, draws: &mut Generator) -> Result<(), AllocError>
    ensures text { OnOk result (out.new.items ≡ out.old.items ++ term_text draws.old.state) }
    ensures state { OnOk result (draws.new.state ≡ after 6 draws.old.state) }
{
    let sign = if draws.draw(2) == 0 { b'+' } else { b'-' };
    out.push(sign)?;
    let size = 1 + draws.draw(1000);
    write_number(out, size)?;
    write_power(out, b"*x^".as_slice(), draws)?;
    write_power(out, b"*y^".as_slice(), draws)?;
    write_power(out, b"*z^".as_slice(), draws)?;
    write_power(out, b"*t^".as_slice(), draws)?;
    Ok(())
}

fn write_power(out: &mut Vec<u8>, name: &[u8], draws: &mut Generator) -> Result<(), AllocError>
    ensures text { OnOk result (out.new.items ≡ out.old.items ++ name.now ++ decimal (drawn 24 (next draws.old.state))) }
    ensures state { draws.new.state ≡ next draws.old.state }
{
    let exponent = draws.draw(24);
    out.extend_from_slice(name)?;
    write_number(out, exponent)
}
