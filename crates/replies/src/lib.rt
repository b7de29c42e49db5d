// What is told to other languages: a struct by value for each kind of answer, with the number of a refusal, or 0, in front. shagorent's calls hand
// these out, and include/shagorent.h has the same structs in C.
#![tactic(auto)]

ghost use Rattle.std.specs.Prelude.{◌≡◌};
ghost use Rattle.plate.specs.Refusal.{done, refusal, told};
ghost use Rattle.replies.specs.Replies.{reply, table_reply, picture_reply, height_reply, job_reply, order_reply};

use column::Judged;
use load::Load;
use orders::{Kind, Order};
use plate::head::Head;
use plate::refusal::Refusal;

// The answer, or a refusal's number and its place.
#[repr(C)]
#[derive(Clone, Copy)]
pub struct Reply {
    pub number: u32,
    pub value: u64,
}

// What goes with the table then, or a refusal.
#[repr(C)]
#[derive(Clone, Copy)]
pub struct TableReply {
    pub number: u32,
    pub head: Head,
    pub place: u64,
}

// Whether the picture fills the column, its share and its difference; or a refusal's number and its place.
#[repr(C)]
#[derive(Clone, Copy)]
pub struct PictureReply {
    pub number: u32,
    pub filled: u32,
    pub value: u64,
    pub difference: i32,
}

// The height in micrometres, or a refusal.
#[repr(C)]
#[derive(Clone, Copy)]
pub struct HeightReply {
    pub number: u32,
    pub height: f32,
    pub place: u64,
}

// What goes with a job's table, and the bound that it asks for; or a refusal.
#[repr(C)]
#[derive(Clone, Copy)]
pub struct JobReply {
    pub number: u32,
    pub head: Head,
    pub bound: u32,
    pub place: u64,
}

// An order, by the kind of its record: micrometres to lift to or seconds to cure for, or the layers to finish after; or a refusal.
#[repr(C)]
#[derive(Clone, Copy)]
pub struct OrderReply {
    pub number: u32,
    pub kind: u32,
    pub amount: f32,
    pub count: u32,
    pub place: u64,
}

impl From<Result<u64, Refusal>> for Reply {
    ghost from_gives = { λ answer replied. replied ≡ reply (told answer) };

    fn from(answer: Result<u64, Refusal>) -> Reply {
        match answer {
            Ok(value) => Reply { number: 0, value },
            Err(Refusal { reason, place }) => Reply {
                number: reason.number(),
                value: place,
            },
        }
    }
}

impl From<Result<Head, Refusal>> for TableReply {
    ghost from_gives = { λ answer replied. replied ≡ table_reply (told answer) };

    fn from(answer: Result<Head, Refusal>) -> TableReply {
        match answer {
            Ok(head) => TableReply {
                number: 0,
                head,
                place: 0,
            },
            Err(Refusal { reason, place }) => TableReply {
                number: reason.number(),
                head: Head::cleared(0, 0),
                place,
            },
        }
    }
}

impl From<Result<Judged, Refusal>> for PictureReply {
    ghost from_gives = { λ answer replied. replied ≡ picture_reply (told answer) };

    fn from(answer: Result<Judged, Refusal>) -> PictureReply {
        match answer {
            Ok(judged) => PictureReply {
                number: 0,
                filled: u32::from(judged.filled),
                value: u64::from(judged.share),
                difference: judged.difference,
            },
            Err(refusal) => PictureReply {
                number: refusal.reason.number(),
                filled: 0,
                // The place by another name than in `Reply`, so that an edit of that line stands once.
                value: refusal.place,
                difference: 0,
            },
        }
    }
}

impl From<Result<f32, Refusal>> for HeightReply {
    ghost from_gives = { λ answer replied. replied ≡ height_reply (told answer) };

    fn from(answer: Result<f32, Refusal>) -> HeightReply {
        match answer {
            Ok(height) => HeightReply {
                number: 0,
                height,
                place: 0,
            },
            Err(Refusal { reason, place }) => HeightReply {
                number: reason.number(),
                height: 0.0,
                place,
            },
        }
    }
}

impl From<Result<Load, Refusal>> for JobReply {
    ghost from_gives = { λ answer replied. replied ≡ job_reply (told answer) };

    fn from(answer: Result<Load, Refusal>) -> JobReply {
        match answer {
            Ok(load) => JobReply {
                number: 0,
                head: load.head,
                bound: load.bound,
                place: 0,
            },
            Err(Refusal { reason, place }) => JobReply {
                number: reason.number(),
                head: Head::cleared(0, 0),
                bound: 0,
                place,
            },
        }
    }
}

impl From<Order> for OrderReply {
    ghost from_gives = { λ order replied. replied ≡ order_reply (done order) };

    fn from(order: Order) -> OrderReply {
        match order {
            Order::Lift(height) => OrderReply {
                number: 0,
                kind: u32::from(Kind::Lift.number()),
                amount: height,
                count: 0,
                place: 0,
            },
            Order::Cure(time) => OrderReply {
                number: 0,
                kind: u32::from(Kind::Cure.number()),
                amount: time,
                count: 0,
                place: 0,
            },
            Order::Finish(layers) => OrderReply {
                number: 0,
                kind: u32::from(Kind::Finish.number()),
                amount: 0.0,
                count: layers,
                place: 0,
            },
        }
    }
}

impl From<Result<Order, Refusal>> for OrderReply {
    ghost from_gives = { λ answer replied. replied ≡ order_reply (told answer) };

    fn from(answer: Result<Order, Refusal>) -> OrderReply {
        match answer {
            Ok(order) => OrderReply::from(order),
            Err(Refusal { reason, place }) => OrderReply {
                number: reason.number(),
                kind: 0,
                amount: 0.0,
                count: 0,
                place,
            },
        }
    }
}
