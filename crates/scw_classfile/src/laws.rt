//! Laws of the format. Each function does nothing: its contract is the law.

ghost use Rattle.std.specs.Prelude.{◌≡◌, ◌++◌, ℕ, [], List};
ghost use Rattle.scw_classfile.specs.Format.{class};
ghost use Rattle.scw_classfile.specs.ReadClass.{ClassBytes, IsWritable};
ghost use Rattle.scw_classfile.specs.declared.class_file.ClassFile.{ClassFile};

/// A class that can be written has bytes, no two classes have the same, and those of one class never
/// begin those of another (JVMS 4.1).
pub fn bytes_tell_the_class()
    ensures some { (c : ClassFile) → IsWritable c → ClassBytes c (class.spell c) }
    ensures alone { (c d : ClassFile) (bytes : List ℕ) → ClassBytes c bytes → ClassBytes d bytes → c ≡ d }
    ensures whole { (c d : ClassFile) (bytes rest : List ℕ) → ClassBytes c bytes → ClassBytes d (bytes ++ rest) → rest ≡ [] }
{}
