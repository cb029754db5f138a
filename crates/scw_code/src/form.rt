//! What stands behind an opcode.

ghost use Rattle.std.specs.Prelude.{◌≡◌};
ghost use Rattle.scw_code.specs.Layout.{shape_of, wide_layout_of};

use crate::layout::{Layout, Shape};

/// The form of the operands: JVMS 6.5, the part "Format" of each instruction.
#[derive(Clone, Copy, Debug, PartialEq, Eq)]
pub enum Form {
    /// Nothing.
    Bare,
    /// A signed byte: `bipush`.
    Byte,
    /// A signed number of two bytes: `sipush`.
    Short,
    /// A local variable in one byte: the loads, the stores and `ret`.
    Slot,
    /// A local variable in one byte, and a signed byte: `iinc`.
    Increment,
    /// A signed distance of two bytes.
    Jump,
    /// A signed distance of four bytes: `goto_w` and `jsr_w`.
    FarJump,
    /// The type of an array's elements in one byte: `newarray`.
    ElementType,
    /// The index of a constant in one byte: `ldc`.
    Constant,
    /// The index of a constant: `ldc_w`.
    WideConstant,
    /// The index of a constant of two places: `ldc2_w`.
    LongConstant,
    /// The index of a field.
    Field,
    /// The index of a method of a class: `invokevirtual`.
    VirtualCall,
    /// The index of a method of a class or an interface: `invokespecial` and `invokestatic`.
    DirectCall,
    /// The index of a method of an interface, a count and a zero byte: `invokeinterface`.
    InterfaceCall,
    /// The index of a call site and two zero bytes: `invokedynamic`.
    DynamicCall,
    /// The index of a class: `new`, `anewarray`, `checkcast` and `instanceof`.
    Class,
    /// The index of a class, and a number of dimensions in one byte: `multianewarray`.
    Dimensions,
    /// Padding, a default, two bounds, and a distance for each number between them: `tableswitch`.
    TableSwitch,
    /// Padding, a default, and pairs of a key and a distance: `lookupswitch`.
    LookupSwitch,
    /// A further opcode, whose operands are wider: `wide`.
    Wide,
}

impl Form {
    /// What stands behind an opcode of this form (JVMS 6.5).
    pub fn shape(self) -> Shape
        ensures { result ≡ shape_of self }
    {
        match self {
            Form::Bare => Shape::Plain(Layout::Nothing),
            Form::Byte => Shape::Plain(Layout::S1),
            Form::Slot | Form::ElementType | Form::Constant => Shape::Plain(Layout::U1),
            Form::Increment => Shape::Plain(Layout::U1S1),
            Form::Short | Form::Jump => Shape::Plain(Layout::S2),
            Form::FarJump => Shape::Plain(Layout::S4),
            Form::WideConstant
            | Form::LongConstant
            | Form::Field
            | Form::VirtualCall
            | Form::DirectCall
            | Form::Class => Shape::Plain(Layout::U2),
            Form::InterfaceCall | Form::DynamicCall => Shape::Plain(Layout::U2U1U1),
            Form::Dimensions => Shape::Plain(Layout::U2U1),
            Form::TableSwitch => Shape::Table,
            Form::LookupSwitch => Shape::Lookup,
            Form::Wide => Shape::Wide,
        }
    }

    /// The operands behind `wide` and an opcode of this form, or none where `wide` doesn't go on
    /// with it (JVMS 6.5, `wide`).
    pub fn wide_layout(self) -> Option<Layout>
        ensures { result ≡ wide_layout_of self }
    {
        match self {
            Form::Slot => Some(Layout::U2),
            Form::Increment => Some(Layout::U2S2),
            Form::Bare
            | Form::Byte
            | Form::Short
            | Form::Jump
            | Form::FarJump
            | Form::ElementType
            | Form::Constant
            | Form::WideConstant
            | Form::LongConstant
            | Form::Field
            | Form::VirtualCall
            | Form::DirectCall
            | Form::InterfaceCall
            | Form::DynamicCall
            | Form::Class
            | Form::Dimensions
            | Form::TableSwitch
            | Form::LookupSwitch
            | Form::Wide => None,
        }
    }
}
