//! What the net of a source shows, as the contract of a function without a body.

ghost use Rattle.std.specs.Prelude.{◌≡◌};
ghost use Rattle.plc_frame.specs.Faces.{face_of_net};
ghost use Rattle.cif_source.specs.Source.{Source};
ghost use Rattle.cif_inst_model.specs.Flat.{net_of_source};
ghost use Rattle.cif_generate.specs.Shown.{face_of};

/// The net of a source shows what the source shows.
pub fn net_shows_the_same()
    ensures { (t : Source) → face_of_net (net_of_source t) ≡ face_of t }
{}
