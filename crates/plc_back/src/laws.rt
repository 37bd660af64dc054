//! What is promised of each text of the program of a net, as the contract of a function without a body.

ghost use Rattle.std.specs.Prelude.{ℕ, List};
ghost use Rattle.cif_net_model.specs.Net.{Net};
ghost use Rattle.cif_net_model.specs.Meaning.{system_of_net};
ghost use Rattle.plc_frame.specs.Faces.{face_of_net};
ghost use Rattle.plc_back.specs.Texts.{Makes, TheProgram};
ghost use Rattle.plc_back.specs.Written.{IsTextOf};

/// It reads as one program, which makes the scans of the net.
pub fn texts_make_the_scans()
    ensures { (n : Net) (U C : ℕ) (text : List ℕ) → IsTextOf n U C text →
        TheProgram text (Makes U C (face_of_net n) (system_of_net n) text) }
{}
