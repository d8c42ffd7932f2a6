//! Histograms.
ghost use Rattle.awk_number_laws.specs.Histograms.{HistogramLaws};

/// A histogram counts each leaf and each null list once; the histograms of parts add up to that of
/// the parts joined.
#[tactic(auto, using(crate::proofs::HistogramLaws::histograms_law))]
pub fn histogram_laws()
    ensures laws { HistogramLaws }
{}
