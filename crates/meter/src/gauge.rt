// A gauge: the level and the peak of the samples, and what it reads as.
ghost use Rattle.std.specs.Prelude.{◌≡◌};
ghost use Rattle.meter.specs.Gauge.{sampled_gauge, reading_of};

// The level goes an eighth of the way to each later sample. The peak is the highest level so far.
#[derive(Clone, Copy, Default)]
pub struct Gauge {
    pub level: f64,
    pub peak: f64,
}

// Quiet, steady at a level, or falling, from a peak to a level.
#[derive(Drop)]
pub enum Reading {
    Quiet,
    Steady(f64),
    Falling(f64, f64),
}

// The gauge after a sample, where `ticked` says whether there was one before.
#[tactic(auto, using(crate::proofs::Cases::eight, crate::proofs::Cases::first, crate::proofs::Cases::rises, crate::proofs::Cases::stays))]
pub fn sampled(g: Gauge, ticked: bool, sample: u32) -> Gauge
    ensures { result ≡ sampled_gauge g ticked sample }
{
    let x = sample as f64;
    let old = g.level;
    let peak = g.peak;
    if !ticked {
        return Gauge { level: x, peak: x };
    }
    let level = old + (x - old) / 8.0;
    // Kept: `f64::max` is another function where the peak is a NaN.
    if peak < level {
        return Gauge { level, peak: level };
    }
    Gauge { level, peak }
}

// What the gauge reads as, where `ticked` says whether there was a sample.
pub fn read(g: Gauge, ticked: bool) -> Reading
    ensures { result ≡ reading_of g ticked }
{
    let level = g.level;
    let peak = g.peak;
    if ticked {
        if level < 1.0 {
            return Reading::Quiet;
        }
        if level < peak / 2.0 {
            return Reading::Falling(level, peak);
        }
        return Reading::Steady(level);
    }
    Reading::Quiet
}
