//! Laws of the table of methods.
ghost use Rattle.std.specs.Prelude.{◌≡◌, IsTrue, Some, map};
ghost use Rattle.sv_methods.specs.MethodNames.{all_methods, are_rising, method_named, signature};
ghost use Rattle.sv_methods.specs.MethodNames.{spelling};
ghost use Rattle.sv_methods.specs.MethodTable.{signature_row, texts_tree};
ghost use Rattle.sv_methods.specs.Outcomes.{Gives};
ghost use Rattle.sv_methods.specs.declared.method.Method.{Method};

/// The list of methods names each row of the table, in rising order, and each of them has a signature.
pub fn the_methods()
    ensures rising { IsTrue (are_rising (map spelling all_methods)) }
    ensures named { (method : Method) → method_named (spelling method) ≡ Some method }
    ensures signed { (method : Method) → signature_row (method_named (spelling method))
        ≡ Gives (texts_tree (signature method)) }
{}
