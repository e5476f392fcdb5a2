//! Arguments of kernel calls.
ghost use Rattle.std.specs.Prelude.{◌≡◌};
ghost use Rattle.kernel_calls.specs.Arguments.{kind_of, argument_name};

/// What a value is that a program passes to a kernel call.
#[derive(Clone, Copy)]
pub enum ArgumentKind {
    /// A C int.
    Int,
    /// A descriptor.
    Descriptor,
    /// The address of a buffer, whose length is the next argument.
    Buffer,
    /// The address of a text, which a zero ends.
    Text,
    /// The address of an array of addresses of texts, which a zero ends.
    Texts,
    /// The address at which two descriptors are stored.
    TwoDescriptors,
    /// The address at which a status is stored, or 0.
    Status,
}

/// An argument of a kernel call.
#[derive(Clone, Copy)]
pub enum Argument {
    /// The status with which a process ends.
    ExitStatus,
    /// Where the status of a child goes.
    ChildStatus,
    /// Where the descriptors of a pipe's two ends go.
    Ends,
    /// A descriptor.
    Descriptor,
    /// Where bytes are, or go.
    Buffer,
    /// How many bytes, or how many ticks.
    Count,
    /// Which process.
    Pid,
    /// The name of a file.
    File,
    /// The words that a program begins with.
    Words,
    /// How a file is opened.
    Flags,
}

impl Argument {
    /// What is passed.
    pub fn kind(self) -> ArgumentKind
        ensures { result ≡ kind_of self }
    {
        match self {
            Argument::ExitStatus | Argument::Count | Argument::Pid | Argument::Flags => {
                ArgumentKind::Int
            }
            Argument::ChildStatus => ArgumentKind::Status,
            Argument::Ends => ArgumentKind::TwoDescriptors,
            Argument::Descriptor => ArgumentKind::Descriptor,
            Argument::Buffer => ArgumentKind::Buffer,
            Argument::File => ArgumentKind::Text,
            Argument::Words => ArgumentKind::Texts,
        }
    }

    /// What it is called in the call's prototype.
    pub fn name(self) -> &'static str
        ensures { result.now ≡ argument_name self }
    {
        match self {
            Argument::ExitStatus | Argument::ChildStatus => "status",
            Argument::Ends => "p",
            Argument::Descriptor => "fd",
            Argument::Buffer => "buf",
            Argument::Count => "n",
            Argument::Pid => "pid",
            Argument::File => "file",
            Argument::Words => "argv",
            Argument::Flags => "flags",
        }
    }
}
