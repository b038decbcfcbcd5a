// The weights of the two cubic kernels, `Catrom` and `Spline`. Read by `taps`, `sampler`, `probe_sampler` and, for
// spans, by `fast_cubic`; `fast_colours` and `cards` cite its definitions.
#![tactic(auto)]

pub mod cubic;
