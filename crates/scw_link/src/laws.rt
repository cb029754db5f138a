//! Laws of the definitions. Each function does nothing: its contract is the law.

ghost use Rattle.std.specs.Prelude.{◌≡◌, ◌++◌, ℕ, [], length, List};
ghost use Rattle.std.specs.List.{flat_map};
ghost use Rattle.scw_classfile.specs.Codec.{counted};
ghost use Rattle.scw_classfile.specs.Format.{class, method, other};
ghost use Rattle.scw_classfile.specs.declared.class_file.ClassFile.{ClassFile};
ghost use Rattle.scw_classfile.specs.declared.class_file.MemberInfo.{MemberInfo};
ghost use Rattle.scw_classfile.specs.declared.pool_entry.EntryKind.{EntryKind};
ghost use Rattle.scw_link.specs.FileBytes.{bytes_before_methods};
ghost use Rattle.scw_link.specs.Sizes.{before_methods, method_size};

/// The sizes by which the places of code are counted are those of the bytes that the format writes (JVMS 4.1 and 4.6).
pub fn sizes_are_those_of_the_bytes()
    ensures whole { (c : ClassFile) → class.spell c ≡ bytes_before_methods c ++ (flat_map (method 0 []).spell c.methods ++ (counted (other 0 [])).spell c.attributes) }
    ensures before { (c : ClassFile) → length (bytes_before_methods c) ≡ before_methods c }
    ensures method { (major : ℕ) (kinds : List EntryKind) (m : MemberInfo) → length ((method major kinds).spell m) ≡ method_size m }
{}
