use class_layout::Name;

/// What a line answers.
#[derive(Clone, Copy, Debug)]
pub enum Reply {
    /// A class was defined, under this number.
    Class(u32),
    /// An object was made, under this number, maybe after a collection.
    Made {
        number: u32,
        collected: bool,
    },
    /// It was done.
    Done,
    /// A value of a primitive kind.
    Number(i64),
    /// A reference to nothing.
    Null,
    /// A reference to the object of this number.
    Object(u32),
    /// The object of this number, and the name of its class.
    Shown {
        number: u32,
        class: Name,
    },
    /// A collection kept so many objects that aren't immune, and removed so many.
    Kept {
        kept: u32,
        freed: u32,
    },
    /// So many regions are free.
    Regions(u32),
    /// The mapped pages of the image, the zygote window and promoted large objects, and of each the touched ones.
    Pages {
        image: u32,
        image_written: u32,
        zygote: u32,
        zygote_written: u32,
        large: u32,
        large_written: u32,
    },
    /// So many frames are in use.
    Frames(u64),
    /// It was the process's dump of this count, from 1, of so many objects.
    Dumped {
        count: u32,
        objects: u32,
    },
    /// Nothing was done, but for a collection where the heap or the zygote window is full.
    Refused(Refusal),
}

/// Why a line is refused.
#[derive(Clone, Copy, Debug, PartialEq, Eq)]
pub enum Refusal {
    /// The line is no command.
    BadLine,
    /// The line has more than 4,096 bytes.
    LineTooLong,
    /// No process of that name was made.
    NoProcess,
    /// The process has exited.
    Exited,
    /// A class has the name.
    ClassTaken,
    /// No class has the name.
    NoClass,
    /// 65,536 classes stand.
    ClassLimit,
    /// A field name occurs twice, or in a superclass.
    FieldTaken,
    /// The process has no root of that name.
    NoRoot,
    /// The root holds null.
    Null,
    /// The object has no field of that name.
    NoField,
    /// The object is no array.
    NotArray,
    /// The index is at least the array's length.
    IndexRange,
    /// The value or the kind doesn't fit.
    Misfit,
    /// The process is sealed already.
    Sealed,
    /// The process isn't sealed.
    NotSealed,
    /// The object would be larger than objects may be.
    TooLarge,
    /// The image is full: its bytes so far, and those of the object.
    ImageFull { fill: u32, size: u32 },
    /// The heap is full, also after a collection: the free regions, and those that the object needs.
    HeapFull { free: u32, needed: u32 },
    /// The zygote window is full: its bytes so far, rounded up to a page, and those that the fork needs.
    ZygoteFull { fill: u32, total: u32 },
    /// A process of the name was made.
    ProcessTaken,
    /// The next allocation number would be 268,435,456.
    NumberLimit,
}

impl Reply {
    ghost use Rattle.std.specs.Prelude.{◌≡◌};
    ghost use Rattle.heap_world.specs.Effect.{is_refusal};

    /// Whether the line was refused.
    pub fn is_refused(&self) -> bool
        ensures { result ≡ is_refusal self.now }
    {
        matches!(self, Reply::Refused(_))
    }
}
