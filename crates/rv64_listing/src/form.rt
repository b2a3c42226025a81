// The forms of words: one for each mnemonic.

ghost use Rattle.std.specs.Prelude.{◌≡◌};
ghost use Rattle.rv64_listing.specs.Table.{form_among, form_named, form_of, forms, name_of};
ghost use Rattle.rv64_listing.specs.declared.form.Form.TheVariants as form;

use rv64_words::word::{Condition, ImmediateOperation, RegisterOperation, ShiftOperation, Word};

/// What a mnemonic names.
#[derive(Clone, Copy, PartialEq, Eq, Debug, Drop)]
pub enum Form {
    Lui,
    Jal,
    Jalr,
    Branch(Condition),
    Ld,
    Sd,
    OpImm(ImmediateOperation),
    ShiftImm(ShiftOperation),
    Op(RegisterOperation),
    Ecall,
}

// All forms.
const FORMS: [Form; 33] = [
    Form::Lui,
    Form::Jal,
    Form::Jalr,
    Form::Branch(Condition::Eq),
    Form::Branch(Condition::Ne),
    Form::Branch(Condition::Lt),
    Form::Branch(Condition::Ge),
    Form::Branch(Condition::Ltu),
    Form::Branch(Condition::Geu),
    Form::Ld,
    Form::Sd,
    Form::OpImm(ImmediateOperation::Addi),
    Form::OpImm(ImmediateOperation::Slti),
    Form::OpImm(ImmediateOperation::Sltiu),
    Form::OpImm(ImmediateOperation::Xori),
    Form::OpImm(ImmediateOperation::Ori),
    Form::OpImm(ImmediateOperation::Andi),
    Form::ShiftImm(ShiftOperation::Slli),
    Form::ShiftImm(ShiftOperation::Srli),
    Form::ShiftImm(ShiftOperation::Srai),
    Form::Op(RegisterOperation::Add),
    Form::Op(RegisterOperation::Sll),
    Form::Op(RegisterOperation::Slt),
    Form::Op(RegisterOperation::Sltu),
    Form::Op(RegisterOperation::Xor),
    Form::Op(RegisterOperation::Srl),
    Form::Op(RegisterOperation::Or),
    Form::Op(RegisterOperation::And),
    Form::Op(RegisterOperation::Sub),
    Form::Op(RegisterOperation::Sra),
    Form::Op(RegisterOperation::Mul),
    Form::Op(RegisterOperation::Div),
    Form::Ecall,
];

// The form of a word.
pub fn form_of(word: &Word) -> Form
    ensures { result ≡ form_of word.now }
{
    match word {
        Word::Lui { .. } => Form::Lui,
        Word::Jal { .. } => Form::Jal,
        Word::Jalr { .. } => Form::Jalr,
        Word::Branch { condition, .. } => Form::Branch(*condition),
        Word::Ld { .. } => Form::Ld,
        Word::Sd { .. } => Form::Sd,
        Word::OpImm { operation, .. } => Form::OpImm(*operation),
        Word::ShiftImm { operation, .. } => Form::ShiftImm(*operation),
        Word::Op { operation, .. } => Form::Op(*operation),
        Word::Ecall => Form::Ecall,
    }
}

// The form of a mnemonic.
pub fn form_named(name: &[u8]) -> Option<Form>
    ensures { result ≡ form_named name.now }
{
    first_named(&FORMS, name)
}

// The first of the forms with this mnemonic.
fn first_named(forms: &[Form], name: &[u8]) -> Option<Form>
    ensures { result ≡ form_among forms.now name.now }
{
    'forms: for form in forms {
        if name == name_of(*form) {
            return Some(*form);
        }
    }
    None
}

// ---- mnemonics

// The mnemonic of a form.
pub fn name_of(form: Form) -> &'static [u8]
    ensures { result.now ≡ name_of form }
{
    match form {
        Form::Lui => b"lui",
        Form::Jal => b"jal",
        Form::Jalr => b"jalr",
        Form::Branch(condition) => branch_name(condition),
        Form::Ld => b"ld",
        Form::Sd => b"sd",
        Form::OpImm(operation) => immediate_name(operation),
        Form::ShiftImm(operation) => shift_name(operation),
        Form::Op(operation) => register_name(operation),
        Form::Ecall => b"ecall",
    }
}

fn branch_name(condition: Condition) -> &'static [u8]
    ensures { result.now ≡ name_of (form.Branch condition) }
{
    match condition {
        Condition::Eq => b"beq",
        Condition::Ne => b"bne",
        Condition::Lt => b"blt",
        Condition::Ge => b"bge",
        Condition::Ltu => b"bltu",
        Condition::Geu => b"bgeu",
    }
}

fn immediate_name(operation: ImmediateOperation) -> &'static [u8]
    ensures { result.now ≡ name_of (form.OpImm operation) }
{
    match operation {
        ImmediateOperation::Addi => b"addi",
        ImmediateOperation::Slti => b"slti",
        ImmediateOperation::Sltiu => b"sltiu",
        ImmediateOperation::Xori => b"xori",
        ImmediateOperation::Ori => b"ori",
        ImmediateOperation::Andi => b"andi",
    }
}

fn shift_name(operation: ShiftOperation) -> &'static [u8]
    ensures { result.now ≡ name_of (form.ShiftImm operation) }
{
    match operation {
        ShiftOperation::Slli => b"slli",
        ShiftOperation::Srli => b"srli",
        ShiftOperation::Srai => b"srai",
    }
}

fn register_name(operation: RegisterOperation) -> &'static [u8]
    ensures { result.now ≡ name_of (form.Op operation) }
{
    match operation {
        RegisterOperation::Add => b"add",
        RegisterOperation::Sll => b"sll",
        RegisterOperation::Slt => b"slt",
        RegisterOperation::Sltu => b"sltu",
        RegisterOperation::Xor => b"xor",
        RegisterOperation::Srl => b"srl",
        RegisterOperation::Or => b"or",
        RegisterOperation::And => b"and",
        RegisterOperation::Sub => b"sub",
        RegisterOperation::Sra => b"sra",
        RegisterOperation::Mul => b"mul",
        RegisterOperation::Div => b"div",
    }
}
